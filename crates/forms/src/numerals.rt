// Bytes in base ten, and ranges between two of them.

ghost use Rattle.std.specs.Prelude.{◌≡◌, ◌≤◌, length, take, drop};
ghost use Rattle.std.specs.List.{prefix_len};
ghost use Rattle.forms.specs.Inner.{NumeralAt, RangeAt, ValueIs};
ghost use Rattle.forms.specs.Numbers.{is_digit, no_leading_zero};

use engine::ByteRange;
use scan::{Read, rest, word_end};

// How many digits a text begins with.
fn digits_len(text: &[u8]) -> usize
    ensures count { result ≡ prefix_len is_digit text.now }
    ensures within { result ≤ length text.now }
{
    text.iter().take_while(|byte| byte.is_ascii_digit()).count()
}

// All the digits that stand at the place.
fn digits_at<'t>(text: &'t [u8], at: usize) -> &'t [u8]
    ensures { result.now ≡ take (prefix_len is_digit (drop at text.now)) (drop at text.now) }
{
    let rest = rest(text, at);
    &rest[..digits_len(rest)]
}

// Whether no zero stands before another digit.
fn is_plain(digits: &[u8]) -> bool
    ensures { result ≡ no_leading_zero digits.now }
{
    digits.len() < 2 || digits[0] != b'0'
}

// The number that digits write, if it is a byte.
fn value_of(digits: &[u8]) -> Option<u8>
    ensures { ValueIs digits.now result }
{
    digits.iter().try_fold(0u8, |value, digit| {
        value
            .checked_mul(10)?
            .checked_add(digit.saturating_sub(b'0'))
    })
}

// The byte that stands at the place in base ten.
pub fn byte_at(text: &[u8], at: usize) -> Option<Read<u8>>
    ensures { NumeralAt text.now at result }
{
    let digits = digits_at(text, at);
    if digits.is_empty() || !is_plain(digits) {
        return None;
    }
    let value = value_of(digits)?;
    Some(Read {
        value,
        end: at + digits.len(),
    })
}

// The range at the place, from behind its opening word on.
pub fn range_at(text: &[u8], at: usize) -> Option<Read<ByteRange>>
    ensures { RangeAt text.now at result }
{
    let low = byte_at(text, at)?;
    let space = word_end(text, low.end, b" ")?;
    let high = byte_at(text, space)?;
    let end = word_end(text, high.end, b"]")?;
    let value = ByteRange::new(low.value, high.value)?;
    Some(Read { value, end })
}
