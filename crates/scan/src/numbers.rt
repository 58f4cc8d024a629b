// Names in tables: whether two are the same, and the number of a name.

ghost use Rattle.std.specs.Prelude.{◌≡◌, take, position};
ghost use Rattle.scan.specs.Lists.{same, number_of, NumberIs, name_at, names_at};

use super::entry::Entry;

// A table counts at most so many names.
pub const MOST_NAMES: usize = 63;

// Whether two names are the same.
pub fn same_name(a: &[u8], b: &[u8]) -> bool
    ensures { result ≡ same a.now b.now }
{
    a == b
}

// The number of a name: the first of the first 63 entries that has it, counted from 1, or none where none has.
pub fn number_of(text: &[u8], entries: &[Entry], name: &[u8]) -> Option<u8>
    ensures { NumberIs (number_of (names_at text.now (take 63 entries.now)) name.now) result }
{
    let index = index_of(text, entries, name)?;
    Some((index + 1) as u8)
}

// The first of the first 63 entries that has the name.
fn index_of(text: &[u8], entries: &[Entry], name: &[u8]) -> Option<usize>
    ensures { result ≡ position (λ entry. same (name_at text.now entry) name.now) (take 63 entries.now) }
{
    entries
        .iter()
        .take(MOST_NAMES)
        .position(|entry| same_name(entry.name.bytes(text), name))
}
