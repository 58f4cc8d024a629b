// What is read: a text whose names have numbers.

ghost use Rattle.declarations.specs.Answers.{numbered_names};
ghost use Rattle.declarations.specs.Inner.{NumberedAt};

use scan::{Entry, Read, name_end, number_of};

// A text, and the entries that give numbers to names.
#[derive(Clone, Copy)]
pub struct Source<'t> {
    pub text: &'t [u8],
    pub entries: &'t [Entry],
}

// The number of the name at the place, or none where the name has no number.
pub fn numbered_at(source: Source<'_>, at: usize) -> Option<Read<Option<u8>>>
    ensures { NumberedAt source.entry.text.now (numbered_names source.entry.text.now source.entry.entries.now) at result }
{
    let end = name_end(source.text, at)?;
    let value = number_of(source.text, source.entries, &source.text[at..end]);
    Some(Read { value, end })
}
