// One value form at a place of a text: what is told of it, and its expression's nodes written into a table.

ghost use Rattle.std.specs.Prelude.{◌≡◌, drop};
ghost use Rattle.forms.specs.Answers.{FormAt, with_form};
ghost use Rattle.forms.specs.Inner.{WritesAt};
ghost use Rattle.forms.specs.Readers.{read_line};

use super::nesting::expression;
use engine::ByteRange;
use models::Node;
use scan::{Read, Span, name_end, word_end};
use writing::Writer;

// Brackets inside the line's own nest at most so deep.
const DEEPEST: u8 = 15;

// Where the name of a form stands, where its line ends, and how many atoms and nodes its expression has.
#[derive(Clone, Copy, PartialEq, Eq, Debug)]
pub struct Lined {
    pub name: Span,
    pub end: usize,
    pub atoms: usize,
    pub nodes: usize,
}

// Where the name of the line at the place stands, and where the line ends, with its expression's nodes written.
fn line(text: &[u8], at: usize, writer: &mut Writer<'_, ByteRange, ()>) -> Option<Read<Span>>
    ensures same_table { writer.new.nodes.ghost_name ≡ writer.old.nodes.ghost_name }
    ensures read { WritesAt text.now at writer.old result writer.new }
{
    let start = word_end(text, at, b"[")?;
    let end = name_end(text, start)?;
    let shape = word_end(text, end, b" ")?;
    let bracket = expression(text, shape, DEEPEST, writer)?;
    let behind = word_end(text, bracket, b"]\n")?;
    Some(Read {
        value: Span { start, end },
        end: behind,
    })
}

// What is told of the form whose line stands at the place, or none where no such line stands there.
pub fn form_at(text: &[u8], at: usize) -> Option<Lined>
    ensures { FormAt text.now at result }
{
    let mut writer = Writer::new(&mut [], 0, ());
    let placed = line(text, at, &mut writer)?;
    Some(Lined {
        name: placed.value,
        end: placed.end,
        atoms: writer.atoms,
        nodes: writer.used,
    })
}

// Writes the nodes of the form's expression into the table from `used` on; what has no place is left out, and where no
// form stands nothing is written.
// Kept: the caller lends the table again for each form, and counts on by what is told.
pub fn write_form(text: &[u8], at: usize, nodes: &mut [Node<ByteRange>], used: usize)
    ensures { nodes.new ≡ with_form (read_line (drop at text.now)) nodes.old used }
{
    if used >= nodes.len() {
        return;
    }
    if form_at(text, at).is_some() {
        line(text, at, &mut Writer::new(nodes, used, ()));
    }
}
