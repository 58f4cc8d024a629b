// Items, told by places of the text.

ghost use Rattle.std.specs.Prelude.{◌<◌, length, drop};
ghost use Rattle.items.specs.Places.{ItemOf, said};
ghost use Rattle.items.specs.Readers.{closed_with};
ghost use Rattle.scan.specs.Readings.{word as read_word};

use scan::{Read, Span, word_end};

// What an item is: a start tag, the tag of an empty element or an end tag, each with its name, a comment, a reference with
// the byte that it stands for, or a run of text.
#[derive(Clone, Copy, PartialEq, Eq, Debug)]
pub enum Kind {
    Start(Span),
    Empty(Span),
    End(Span),
    Comment,
    Reference(u8),
    Run(Span),
}

// An item's kind and the place behind it.
pub type Item = Read<Kind>;

// An item of the kind, which the word at the place ends.
pub(crate) fn closed_with(text: &[u8], at: usize, word: &[u8], kind: Kind) -> Option<Item>
    ensures { 0 < length word.now → ItemOf text.now at (closed_with (said text.now kind) (read_word word.now (drop at text.now))) result }
{
    word_end(text, at, word).map(|end| Read { value: kind, end })
}
