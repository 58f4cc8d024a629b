// Blanks.

ghost use Rattle.std.specs.Prelude.{◌≡◌, ◌≤◌, length, drop};
ghost use Rattle.scan.specs.Bytes.{is_blank, first_is, skip};
ghost use Rattle.std.specs.List.{prefix_len};

use super::bytes::{is_blank, peek, rest};

// The place behind the blanks; past the end it is the place itself.
pub fn skip_blanks(text: &[u8], at: usize) -> usize
    ensures behind { drop result text.now ≡ skip (drop at text.now) }
    ensures forward { at ≤ result }
    ensures inside { at ≤ length text.now → result ≤ length text.now }
{
    at + leading_blanks(rest(text, at))
}

// How many blanks stand at the front of the text.
fn leading_blanks(text: &[u8]) -> usize
    ensures { result ≡ prefix_len is_blank text.now }
{
    text.iter().take_while(|byte| is_blank(**byte)).count()
}

// Whether a blank stands at the place.
pub fn blank_at(text: &[u8], at: usize) -> bool
    ensures { result ≡ first_is is_blank (drop at text.now) }
{
    peek(text, at).is_some_and(is_blank)
}
