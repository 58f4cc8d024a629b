// The words that open an expression.

ghost use Rattle.forms.specs.Inner.{OpenedAt, OpenedBy};

use scan::{Read, word_end};
use writing::{Joint, Mark};

// What an opening word says of the expression.
#[derive(Clone, Copy)]
pub enum Opening {
    Range,
    Members(Joint),
    Marked(Mark),
}

// The opening, if its word stands at the place.
fn opened(text: &[u8], at: usize, word: &[u8], opening: Opening) -> Option<Read<Opening>>
    ensures { OpenedBy text.now at word.now opening result }
{
    let end = word_end(text, at, word)?;
    Some(Read {
        value: opening,
        end,
    })
}

// The opening word at the place.
pub fn opening_at(text: &[u8], at: usize) -> Option<Read<Opening>>
    ensures { OpenedAt text.now at result }
{
    opened(text, at, b"[range ", Opening::Range)
        .or_else(|| opened(text, at, b"[seq ", Opening::Members(Joint::Sequence)))
        .or_else(|| opened(text, at, b"[alt ", Opening::Members(Joint::Alternatives)))
        .or_else(|| opened(text, at, b"[star ", Opening::Marked(Mark::AnyNumber)))
        .or_else(|| opened(text, at, b"[plus ", Opening::Marked(Mark::AtLeastOne)))
        .or_else(|| opened(text, at, b"[opt ", Opening::Marked(Mark::Perhaps)))
}
