// Reading a text of declarations into lent tables.

ghost use Rattle.std.specs.Prelude.{◌≡◌, min, length};
ghost use Rattle.drafts.specs.Reading.{AskedOfAll, AskedText, ReadInto, refuse_at};

use super::ask::{first_no, first_overfull};
use super::note::note;
use super::refusal::{Question, Refusal};
use super::write::write_models;
use engine::ContentAtom;
use models::{Model, Node};
use scan::{Entry, Span};

// The most bytes that a text may have.
const MOST_BYTES: usize = 32_768;

// The most atoms that a model may have.
const MOST_ATOMS: usize = 63;

// The most declarations that a text may have.
const MOST_DECLARATIONS: usize = 63;

// The most nodes that are used.
const MOST_NODES: usize = 2_048;

// The zero of a table of records.
pub const ZERO_MODEL: Model = Model { start: 0, end: 0 };

// The zero of a table of entries.
pub const ZERO_ENTRY: Entry = Entry {
    place: 0,
    name: Span { start: 0, end: 0 },
};

// A refusal where there is a place, which got a no.
fn refuse_at(question: Question, place: Option<usize>) -> Result<(), Refusal>
    ensures { result ≡ refuse_at question place }
{
    place.map_or(Ok(()), |place| Err(Refusal { question, place }))
}

// Asks everything about the declarations at these entries, question by question.
fn ask_declarations(text: &[u8], entries: &[Entry], nodes: usize) -> Result<(), Refusal>
    ensures { AskedOfAll text.now entries.now nodes result }
{
    let overgrown = first_no(text, entries, |it| it.told.atoms <= MOST_ATOMS);
    refuse_at(Question::Atoms, overgrown)?;
    let repeated = first_no(text, entries, |it| it.is_new);
    refuse_at(Question::NewName, repeated)?;
    let undeclared = first_no(text, entries, |it| it.told.known);
    refuse_at(Question::Declared, undeclared)?;
    let doubled = first_no(text, entries, |it| it.told.distinct);
    refuse_at(Question::Once, doubled)?;
    refuse_at(
        Question::Nodes,
        first_overfull(text, entries, nodes.min(MOST_NODES)),
    )
}

// Asks every question about a text, with tables of so many nodes and models beside that of the entries; answers how
// many declarations there are.
fn ask_text(
    text: &[u8],
    entries: &mut [Entry],
    nodes: usize,
    models: usize,
) -> Result<usize, Refusal>
    ensures { AskedText (record { nodes = nodes; records = min models (length entries.old) }) text.now entries.old entries.new result }
{
    if text.len() > MOST_BYTES {
        return Err(Refusal {
            question: Question::Length,
            place: MOST_BYTES,
        });
    }
    let room = models.min(entries.len()).min(MOST_DECLARATIONS);
    let noted = note(text, entries, room).map_err(|place| Refusal {
        question: Question::Form,
        place,
    })?;
    refuse_at(Question::Record, noted.beyond)?;
    ask_declarations(text, &entries[0..noted.count], nodes)?;
    Ok(noted.count)
}

// Reads a text of declarations into the tables, and answers how many there are. After a refusal all tables are zero;
// else the places that are not used are.
// Kept: three slices, since `Draft::read` takes its BlankTables apart to hold the tables after a yes.
pub fn read_into(
    text: &[u8],
    nodes: &mut [Node<ContentAtom>],
    models: &mut [Model],
    entries: &mut [Entry],
) -> Result<usize, Refusal>
    ensures { ReadInto text.now nodes.old models.old entries.old nodes.new models.new entries.new result }
{
    nodes.fill(Node::Unused);
    models.fill(ZERO_MODEL);
    entries.fill(ZERO_ENTRY);
    match ask_text(text, entries, nodes.len(), models.len()) {
        Ok(count) => {
            write_models(text, &entries[0..count], nodes, models);
            Ok(count)
        }
        Err(refusal) => {
            entries.fill(ZERO_ENTRY);
            Err(refusal)
        }
    }
}
