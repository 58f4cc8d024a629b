// Runs of text.

ghost use Rattle.std.specs.Prelude.{◌≡◌, not, ◌&&◌, drop, codes};
ghost use Rattle.items.specs.Grammar.{is_markup};
ghost use Rattle.items.specs.Places.{ItemOf};
ghost use Rattle.items.specs.Readers.{as_chars, chars_from, allowed, in_run, RunStops, there};
ghost use Rattle.items.specs.Values.{all_blank};
ghost use Rattle.scan.specs.Bytes.{first_is};
ghost use Rattle.scan.specs.Readings.{word as read_word};

use super::item::{Item, Kind};
use scan::{Read, Span, is_blank, is_text_byte, peek, word_end};

// The run of text at the place.
pub(crate) fn run_at(text: &[u8], at: usize) -> Option<Item>
    ensures { ItemOf text.now at (as_chars (chars_from (drop at text.now))) result }
{
    let end = stop(text, at).unwrap_or(text.len());
    let run = Span { start: at, end };
    (at < end && !goes_on(text, end)).then_some(Read {
        value: Kind::Run(run),
        end,
    })
}

// The first place from this one on where a byte begins markup or may not stand.
fn stop(text: &[u8], at: usize) -> Option<usize>
    ensures { RunStops text.now at result }
{
    (at..text.len()).find(|here| !is_held(text, *here))
}

// Whether a run may hold the byte at the place.
fn is_held(text: &[u8], at: usize) -> bool
    ensures { result ≡ in_run (drop at text.now) }
{
    goes_on(text, at) && may_stand(text, at)
}

// Whether a byte stands at the place that begins no markup.
fn goes_on(text: &[u8], at: usize) -> bool
    ensures { result ≡ first_is (λ b. not (is_markup b)) (drop at text.now) }
{
    peek(text, at).is_some_and(|byte| !is_markup(byte))
}

// Whether the byte begins markup.
fn is_markup(byte: u8) -> bool
    ensures { result ≡ is_markup byte }
{
    matches!(byte, b'<' | b'&')
}

// Whether the byte at the place may stand in text, and `]]>` does not begin there.
fn may_stand(text: &[u8], at: usize) -> bool
    ensures { result ≡ allowed (drop at text.now) }
{
    match peek(text, at) {
        Some(b']') => !closes_section(text, at),
        Some(byte) => is_text_byte(byte),
        None => false,
    }
}

// Whether `]]>` begins at the place.
fn closes_section(text: &[u8], at: usize) -> bool
    ensures { result ≡ there (read_word (codes "]]>") (drop at text.now)) }
{
    word_end(text, at, b"]]>").is_some()
}

// Whether a run holds nothing but blanks.
pub fn is_blank_run(bytes: &[u8]) -> bool
    ensures { result ≡ all_blank bytes.now }
{
    bytes.iter().all(|byte| is_blank(*byte))
}
