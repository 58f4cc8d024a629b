// References.

ghost use Rattle.std.specs.Prelude.{drop};
ghost use Rattle.items.specs.Places.{ItemOf};
ghost use Rattle.items.specs.Readers.{read_reference};

use super::item::{Item, Kind, closed_with};

// The reference at the place.
pub(crate) fn reference_at(text: &[u8], at: usize) -> Option<Item>
    ensures { ItemOf text.now at (read_reference (drop at text.now)) result }
{
    closed_with(text, at, b"&lt;", Kind::Reference(b'<'))
        .or_else(|| closed_with(text, at, b"&gt;", Kind::Reference(b'>')))
        .or_else(|| closed_with(text, at, b"&amp;", Kind::Reference(b'&')))
        .or_else(|| closed_with(text, at, b"&quot;", Kind::Reference(b'"')))
        .or_else(|| closed_with(text, at, b"&apos;", Kind::Reference(b'\'')))
}
