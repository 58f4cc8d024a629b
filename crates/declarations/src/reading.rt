// One declaration at a place of a text: what is told of it, and its model written into a table.

ghost use Rattle.std.specs.Prelude.{◌≡◌, drop};
ghost use Rattle.declarations.specs.Answers.{DeclaredAt, with_model, numbered_names};
ghost use Rattle.declarations.specs.Inner.{HeadAt, WritesAt};
ghost use Rattle.declarations.specs.Readers.{read_declaration};

use super::content::content;
use super::declared::Declared;
use super::model::ModelWriter;
use super::source::Source;
use engine::ContentAtom;
use models::Node;
use scan::{Entry, Read, Span, blank_at, byte_is, name_end, skip_blanks, word_end};
use writing::Writer;

// What is told of a declaration besides what is written: where its name stands, and whether no name stands twice in
// its mixed model.
// Kept: `distinct` is a fact that is asked by itself; no value hangs on it.
#[derive(Clone, Copy)]
struct Head {
    name: Span,
    distinct: bool,
}

// Where the name of a declaration stands, and where its content begins.
fn opening(text: &[u8], at: usize) -> Option<Read<Span>>
    ensures { HeadAt text.now at result }
{
    let word = word_end(text, at, b"<!ELEMENT")?;
    if !blank_at(text, word) {
        return None;
    }
    let start = skip_blanks(text, word);
    let end = name_end(text, start)?;
    if !blank_at(text, end) {
        return None;
    }
    let content = skip_blanks(text, end);
    Some(Read {
        value: Span { start, end },
        end: content,
    })
}

// The declaration at the place, with its model written.
fn declaration(source: Source<'_>, at: usize, model: &mut ModelWriter<'_>) -> Option<Read<Head>>
    ensures same_table { model.new.nodes.ghost_name ≡ model.old.nodes.ghost_name }
    ensures read { WritesAt source.entry.text.now (numbered_names source.entry.text.now source.entry.entries.now) at model.old result model.new }
{
    let name = opening(source.text, at)?;
    let body = content(source, name.end, model)?;
    let close = skip_blanks(source.text, body.end);
    if !byte_is(source.text, close, b'>') {
        return None;
    }
    Some(Read {
        value: Head {
            name: name.value,
            distinct: body.value,
        },
        end: close + 1,
    })
}

// What is told of the declaration at the place, or none where no declaration stands there. Its names have the numbers
// of the entries.
pub fn declaration_at(text: &[u8], at: usize, entries: &[Entry]) -> Option<Declared>
    ensures { DeclaredAt text.now (numbered_names text.now entries.now) at result }
{
    let mut model = Writer::new(&mut [], 0, true);
    let read = declaration(Source { text, entries }, at, &mut model)?;
    Some(Declared {
        name: read.value.name,
        end: read.end,
        atoms: model.atoms,
        nodes: model.used,
        known: model.told,
        distinct: read.value.distinct,
    })
}

// Writes the nodes of the declaration's model into the table from `used` on; what has no place is left out, and where
// no declaration stands nothing is written.
// Kept: the caller lends the table again for each model, and counts on by what is told.
pub fn write_model(
    text: &[u8],
    at: usize,
    entries: &[Entry],
    nodes: &mut [Node<ContentAtom>],
    used: usize,
)
    ensures { nodes.new ≡ with_model (numbered_names text.now entries.now) (read_declaration (drop at text.now)) nodes.old used }
{
    if used >= nodes.len() {
        return;
    }
    if declaration_at(text, at, entries).is_some() {
        let mut model = Writer::new(nodes, used, true);
        declaration(Source { text, entries }, at, &mut model);
    }
}
