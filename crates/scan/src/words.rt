// Words: bytes that have to stand as they are.

ghost use Rattle.std.specs.Prelude.{◌≡◌, ◌<◌, [], length, drop, Some};
ghost use Rattle.scan.specs.Readings.{EndOf, word as read_word};

use super::bytes::rest;

// The place behind the word, or none where it does not stand at the place. No bytes stand at every place.
pub fn word_end(text: &[u8], at: usize, word: &[u8]) -> Option<usize>
    ensures answer { 0 < length word.now → EndOf text.now at (read_word word.now (drop at text.now)) result }
    ensures empty { word.now ≡ [] → result ≡ Some at }
{
    rest(text, at).starts_with(word).then(|| at + word.len())
}
