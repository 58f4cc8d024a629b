// The content of a declaration: `EMPTY`, `ANY`, a mixed model, or an expression of names.

ghost use Rattle.std.specs.Prelude.{◌≡◌, ℕ, List, length, drop, codes};
ghost use Rattle.declarations.specs.Answers.{numbered_names};
ghost use Rattle.declarations.specs.Contents.{anything};
ghost use Rattle.declarations.specs.Grammar.{deepest};
ghost use Rattle.declarations.specs.Inner.{ContentAt};
ghost use Rattle.declarations.specs.Readers.{read_content, or_else, read_group, as_children, marked as with_marks, bracketed as in_bracket};
ghost use Rattle.scan.specs.Readings.{word};

use super::marks::marked;
use super::mixed::mixed;
use super::model::ModelWriter;
use super::nesting::group;
use super::source::Source;
use engine::ContentAtom;
use models::Node;
use scan::{Entry, MOST_NAMES, Read, byte_is, skip_blanks, word_end};

// Brackets nest at most so deep.
const DEEPEST: u8 = 16;

// How many names have numbers.
fn count(entries: &[Entry]) -> u8
    ensures { (text : List ℕ) → result ≡ length (numbered_names text entries.now) }
{
    entries.len().min(MOST_NAMES) as u8
}

// An expression of names.
fn children(source: Source<'_>, at: usize, model: &mut ModelWriter<'_>) -> Option<Read<bool>>
    ensures same_table { model.new.nodes.ghost_name ≡ model.old.nodes.ghost_name }
    ensures read { ContentAt source.entry.text.now (numbered_names source.entry.text.now source.entry.entries.now) at (as_children (with_marks (read_group deepest (drop at source.entry.text.now)))) model.old result model.new }
{
    let bracket = group(source, at, DEEPEST, model)?;
    let end = marked(source.text, bracket, model);
    Some(Read { value: true, end })
}

// What stands in brackets: a mixed model or an expression of names.
fn bracketed(source: Source<'_>, at: usize, model: &mut ModelWriter<'_>) -> Option<Read<bool>>
    ensures same_table { model.new.nodes.ghost_name ≡ model.old.nodes.ghost_name }
    ensures read { ContentAt source.entry.text.now (numbered_names source.entry.text.now source.entry.entries.now) at (in_bracket (drop at source.entry.text.now) (drop at source.entry.text.now)) model.old result model.new }
{
    if !byte_is(source.text, at, b'(') {
        return None;
    }
    let start = skip_blanks(source.text, at + 1);
    match word_end(source.text, start, b"#PCDATA") {
        Some(word) => mixed(source, word, model),
        None => children(source, at, model),
    }
}

// `ANY`, or what stands in brackets.
fn any_or_bracketed(
    source: Source<'_>,
    at: usize,
    model: &mut ModelWriter<'_>,
) -> Option<Read<bool>>
    ensures same_table { model.new.nodes.ghost_name ≡ model.old.nodes.ghost_name }
    ensures read { ContentAt source.entry.text.now (numbered_names source.entry.text.now source.entry.entries.now) at (or_else anything (in_bracket (drop at source.entry.text.now) (drop at source.entry.text.now)) (word (codes "ANY") (drop at source.entry.text.now))) model.old result model.new }
{
    let Some(end) = word_end(source.text, at, b"ANY") else {
        return bracketed(source, at, model);
    };
    let every = ContentAtom::All(count(source.entries));
    model.put(Node::Atom(every));
    model.put(Node::Star);
    Some(Read { value: true, end })
}

// The content of a declaration: where it ends, and whether the names of a mixed model differ.
pub fn content(source: Source<'_>, at: usize, model: &mut ModelWriter<'_>) -> Option<Read<bool>>
    ensures same_table { model.new.nodes.ghost_name ≡ model.old.nodes.ghost_name }
    ensures read { ContentAt source.entry.text.now (numbered_names source.entry.text.now source.entry.entries.now) at (read_content (drop at source.entry.text.now)) model.old result model.new }
{
    let Some(end) = word_end(source.text, at, b"EMPTY") else {
        return any_or_bracketed(source, at, model);
    };
    model.put(Node::Empty);
    Some(Read { value: true, end })
}
