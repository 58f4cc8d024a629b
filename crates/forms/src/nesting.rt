// Expressions in brackets. One recursion reads them, and writes and counts their nodes.

ghost use Rattle.std.specs.Prelude.{◌≡◌, ℕ, List, drop};
ghost use Rattle.engine.specs.declared.range.ByteRange.{ByteRange as OfRange};
ghost use Rattle.forms.specs.Inner.{PartIs, ExpressionAt, joint_of, mark_of, read_more};
ghost use Rattle.forms.specs.Readers.{read_expression, read_members, read_marked};
ghost use Rattle.models.specs.Expressions.{Exp};
ghost use Rattle.writing.specs.declared.writer.Writer.{Writer as OfWriter};

use super::numerals::range_at;
use super::openings::{Opening, opening_at};
use engine::ByteRange;
use models::Node;
use scan::{byte_is, word_end};
use writing::{Joint, Mark, Writer};

// The place behind an expression, with at most `left` brackets open at once.
#[cycle(expression_marked_members_more_members)]
pub fn expression(
    text: &[u8],
    at: usize,
    left: u8,
    writer: &mut Writer<'_, ByteRange, ()>,
) -> Option<usize>
    ensures same_table { writer.new.nodes.ghost_name ≡ writer.old.nodes.ghost_name }
    ensures read { ExpressionAt text.now at (read_expression left (drop at text.now)) writer.old result writer.new }
{
    if left == 0 {
        return None;
    }
    let opened = opening_at(text, at)?;
    match opened.value {
        Opening::Range => {
            let range = range_at(text, opened.end)?;
            writer.put(Node::Atom(range.value));
            Some(range.end)
        }
        Opening::Members(joint) => members(text, opened.end, left - 1, joint, writer),
        Opening::Marked(mark) => marked(text, opened.end, left - 1, mark, writer),
    }
}

// The place behind what a mark is put on and the mark, from behind the opening word on.
#[cycle(expression_marked_members_more_members)]
fn marked(
    text: &[u8],
    at: usize,
    left: u8,
    mark: Mark,
    writer: &mut Writer<'_, ByteRange, ()>,
) -> Option<usize>
    ensures same_table { writer.new.nodes.ghost_name ≡ writer.old.nodes.ghost_name }
    ensures read { ExpressionAt text.now at (read_marked (read_expression left) (mark_of mark) (drop at text.now)) writer.old result writer.new }
{
    let inside = expression(text, at, left, writer)?;
    let end = word_end(text, inside, b"]")?;
    writer.put(Node::from(mark));
    Some(end)
}

// The place behind the members of a list, from behind its opening word on: two or more.
#[cycle(expression_marked_members_more_members)]
fn members(
    text: &[u8],
    at: usize,
    left: u8,
    joint: Joint,
    writer: &mut Writer<'_, ByteRange, ()>,
) -> Option<usize>
    ensures same_table { writer.new.nodes.ghost_name ≡ writer.old.nodes.ghost_name }
    ensures read { ExpressionAt text.now at (read_members (read_expression left) (joint_of joint) (drop at text.now)) writer.old result writer.new }
{
    let first = expression(text, at, left, writer)?;
    let space = word_end(text, first, b" ")?;
    let second = expression(text, space, left, writer)?;
    writer.put(Node::from(joint));
    more_members(text, second, left, joint, writer)
}

// The place behind the members that follow the first two, and the closing bracket.
#[cycle(expression_marked_members_more_members)]
fn more_members(
    text: &[u8],
    at: usize,
    left: u8,
    joint: Joint,
    writer: &mut Writer<'_, ByteRange, ()>,
) -> Option<usize>
    ensures same_table { writer.new.nodes.ghost_name ≡ writer.old.nodes.ghost_name }
    ensures read { (start : ℕ) (e : Exp OfRange) (rest : List ℕ) (before : OfWriter OfRange (Unit {0})) → PartIs text.now start e rest before at writer.old → ExpressionAt text.now start (read_more left (joint_of joint) e rest) before result writer.new }
{
    // Kept: each member's place is known only when the one before was read, so there is no list to go over.
    let mut here = at;
    while byte_is(text, here, b' ') {
        here = expression(text, here + 1, left, writer)?;
        writer.put(Node::from(joint));
    }
    if byte_is(text, here, b']') {
        Some(here + 1)
    } else {
        None
    }
}
