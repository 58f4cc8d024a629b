// The questions about each declaration: every one is put to all declarations before the next.

ghost use Rattle.drafts.specs.Asks.{FirstNoOf, OverfullOf};

use declarations::{Declared, declaration_at};
use scan::{Entry, number_of};

// What is told of one of the declarations, and whether its name is new among them.
#[derive(Clone, Copy)]
pub struct Entered {
    pub told: Declared,
    pub is_new: bool,
}

// The place of the first declaration with a no, or none.
pub fn first_no<F: Fn(Entered) -> bool>(text: &[u8], entries: &[Entry], admits: F) -> Option<usize>
    requires { F.IsAlwaysCallable admits }
    ensures { FirstNoOf text.now entries.now (F.post admits) result }
{
    for (index, entry) in entries.iter().enumerate() {
        let told = declaration_at(text, entry.place, entries)?;
        let number = number_of(text, entries, entry.name.bytes(text));
        let is_new = number.map(usize::from) == Some(index + 1);
        if !admits(Entered { told, is_new }) {
            return Some(entry.place);
        }
    }
    None
}

// The place of the first declaration whose nodes no longer fit, with those before it, into so many places.
pub fn first_overfull(text: &[u8], entries: &[Entry], limit: usize) -> Option<usize>
    ensures { OverfullOf text.now entries.now limit result }
{
    let mut left = limit;
    for entry in entries {
        let told = declaration_at(text, entry.place, entries)?;
        if told.nodes > left {
            return Some(entry.place);
        }
        left -= told.nodes;
    }
    None
}
