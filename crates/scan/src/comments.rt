// Comments.

ghost use Rattle.std.specs.Prelude.{◌≡◌, drop};
ghost use Rattle.scan.specs.Comments.{read_comment, comment_rest, goes_on, two_dashes, StopsAt};
ghost use Rattle.scan.specs.Readings.{EndOf};

use super::bytes::{byte_is, is_text_byte, peek, rest};
use super::words::word_end;

// The place behind the comment, or none where no comment stands at the place.
pub fn comment_end(text: &[u8], at: usize) -> Option<usize>
    ensures { EndOf text.now at (read_comment (drop at text.now)) result }
{
    let inside = word_end(text, at, b"<!--")?;
    comment_rest_end(text, inside)
}

// The same from behind the opening on.
fn comment_rest_end(text: &[u8], at: usize) -> Option<usize>
    ensures { EndOf text.now at (comment_rest (drop at text.now)) result }
{
    let stop = stop(text, at)?;
    word_end(text, stop, b"-->")
}

// The first place from this one on where what a comment holds does not go on.
fn stop(text: &[u8], at: usize) -> Option<usize>
    ensures { StopsAt text.now at result }
{
    (at..text.len()).find(|here| !goes_on(text, *here))
}

// Whether what a comment holds goes on with the byte at the place.
fn goes_on(text: &[u8], at: usize) -> bool
    ensures { result ≡ goes_on (drop at text.now) }
{
    if byte_is(text, at, b'-') {
        !two_dashes(rest(text, at))
    } else {
        peek(text, at).is_some_and(is_text_byte)
    }
}

// Whether two dashes stand at the front of the text.
fn two_dashes(text: &[u8]) -> bool
    ensures { result ≡ two_dashes text.now }
{
    text.starts_with(b"--")
}
