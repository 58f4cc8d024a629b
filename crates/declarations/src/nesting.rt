// Expressions in brackets. One recursion reads them, and writes and counts their nodes.

ghost use Rattle.std.specs.Prelude.{◌≡◌, drop};
ghost use Rattle.declarations.specs.Answers.{numbered_names};
ghost use Rattle.declarations.specs.Grammar.{sign as joint_sign};
ghost use Rattle.declarations.specs.Inner.{ExpressionAt, joint_of, read_unit};
ghost use Rattle.declarations.specs.Readers.{joint_at as read_joint, read_cp, read_group};

use super::marks::marked;
use super::model::{ModelWriter, put_name};
use super::source::{Source, numbered_at};
use models::Node;
use scan::{byte_is, skip_blanks};
use writing::Joint;

// The place behind a group in brackets, with at most `left` brackets open at once.
#[cycle(group_particle_unit)]
pub fn group(source: Source<'_>, at: usize, left: u8, model: &mut ModelWriter<'_>) -> Option<usize>
    ensures same_table { model.new.nodes.ghost_name ≡ model.old.nodes.ghost_name }
    ensures read { ExpressionAt source.entry.text.now (numbered_names source.entry.text.now source.entry.entries.now) at (read_group left (drop at source.entry.text.now)) model.old result model.new }
{
    let text = source.text;
    if left == 0 || !byte_is(text, at, b'(') {
        return None;
    }
    let start = skip_blanks(text, at + 1);
    let mut end = particle(source, start, left - 1, model)?;
    let joint = joint_at(text, end);
    // Kept: each member's place is known only when the one before was read, so there is no list to go over.
    loop {
        let here = skip_blanks(text, end);
        if byte_is(text, here, b')') {
            return Some(here + 1);
        }
        if !byte_is(text, here, sign(joint)) {
            return None;
        }
        let next = skip_blanks(text, here + 1);
        end = particle(source, next, left - 1, model)?;
        model.put(Node::from(joint));
    }
}

// The place behind a name or a group and the mark behind it.
#[cycle(group_particle_unit)]
fn particle(source: Source<'_>, at: usize, left: u8, model: &mut ModelWriter<'_>) -> Option<usize>
    ensures same_table { model.new.nodes.ghost_name ≡ model.old.nodes.ghost_name }
    ensures read { ExpressionAt source.entry.text.now (numbered_names source.entry.text.now source.entry.entries.now) at (read_cp (read_group left) (drop at source.entry.text.now)) model.old result model.new }
{
    let end = unit(source, at, left, model)?;
    Some(marked(source.text, end, model))
}

// The place behind a name or a group.
#[cycle(group_particle_unit)]
fn unit(source: Source<'_>, at: usize, left: u8, model: &mut ModelWriter<'_>) -> Option<usize>
    ensures same_table { model.new.nodes.ghost_name ≡ model.old.nodes.ghost_name }
    ensures read { ExpressionAt source.entry.text.now (numbered_names source.entry.text.now source.entry.entries.now) at (read_unit left (drop at source.entry.text.now)) model.old result model.new }
{
    match numbered_at(source, at) {
        Some(name) => {
            put_name(model, name.value);
            Some(name.end)
        }
        None => group(source, at, left, model),
    }
}

// How the members of a group are joined, from behind the first one.
fn joint_at(text: &[u8], at: usize) -> Joint
    ensures { joint_of result ≡ read_joint (drop at text.now) }
{
    if byte_is(text, skip_blanks(text, at), sign(Joint::Alternatives)) {
        Joint::Alternatives
    } else {
        Joint::Sequence
    }
}

// The byte that joins the members of a group.
fn sign(joint: Joint) -> u8
    ensures { result ≡ joint_sign (joint_of joint) }
{
    match joint {
        Joint::Sequence => b',',
        Joint::Alternatives => b'|',
    }
}
