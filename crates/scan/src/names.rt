// Names.

ghost use Rattle.std.specs.Prelude.{◌≡◌, ◌+◌, ◌-◌, take, drop, Some, None};
ghost use Rattle.scan.specs.Bytes.{is_name_byte};
ghost use Rattle.scan.specs.Names.{read_name};
ghost use Rattle.scan.specs.Readings.{EndOf, got};
ghost use Rattle.std.specs.List.{prefix_len};

use super::bytes::{is_initial, is_name_byte, peek, rest};

// A name has at most so many bytes.
pub const MOST_NAME_BYTES: usize = 32;

// The place behind the name at the place, or none where no name stands there.
pub fn name_end(text: &[u8], at: usize) -> Option<usize>
    ensures answer { EndOf text.now at (read_name (drop at text.now)) result }
    ensures name { elim result [ None ↦ Unit {0} | Some end ↦ read_name (drop at text.now) ≡ got (take (end - at) (drop at text.now)) (drop end text.now) ] }
{
    if !peek(text, at).is_some_and(is_initial) {
        return None;
    }
    let end = name_run_end(text, at);
    (end - at <= MOST_NAME_BYTES).then_some(end)
}

// The place behind all the name characters that stand at the place.
fn name_run_end(text: &[u8], at: usize) -> usize
    ensures { result ≡ at + prefix_len is_name_byte (drop at text.now) }
{
    at + name_bytes(rest(text, at))
}

// How many bytes at the front of the text a name may go on with.
fn name_bytes(text: &[u8]) -> usize
    ensures { result ≡ prefix_len is_name_byte text.now }
{
    text.iter().take_while(|byte| is_name_byte(**byte)).count()
}
