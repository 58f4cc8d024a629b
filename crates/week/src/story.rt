// The week's calls: what the hub sent, and how the foreman mended it.

use bakery::{CORRECTION, HOURS, LOCK, SHEET, SHIFT, agreement, hours_values};
use sheet::{Call, Engines, Expected, Refusal, Sheet};

pub const LENGTH: usize = 23;

// How many of the calls lead up to the end of the last shift, and to the end of the lock.
pub const SHIFTS_DONE: usize = 13;

pub const LOCKED: usize = 20;

// Two shifts, a correction and the lock. The hub wrote hours with a comma, which is refused and sent again
// with a point; it wrote a second correction behind the lock, which is refused, and the sheet ends without it.
pub fn week_calls<'a>() -> [Call<'a>; LENGTH] {
    [
        Call::Begin(SHEET),
        Call::start(SHEET),
        Call::start(SHIFT),
        Call::start(HOURS),
        Call::text(b"8"),
        Call::end(HOURS),
        Call::end(SHIFT),
        Call::start(SHIFT),
        Call::start(HOURS),
        Call::text(b"7,50"),
        Call::text(b"7.50"),
        Call::end(HOURS),
        Call::end(SHIFT),
        Call::start(CORRECTION),
        Call::start(HOURS),
        Call::text(b"0.25"),
        Call::end(HOURS),
        Call::end(CORRECTION),
        Call::start(LOCK),
        Call::end(LOCK),
        Call::start(CORRECTION),
        Call::end(SHEET),
        Call::Finish,
    ]
}

// What a sheet expects after the first of the calls.
pub fn expected_after(calls: &[Call], sent: usize) -> Result<Expected, Refusal> {
    let engines = Engines {
        content: &agreement(),
        value: &hours_values(),
    };
    let mut sheet = Sheet::make(engines);
    for call in calls.iter().take(sent) {
        let _ = sheet.answer(*call);
    }
    sheet.expect()
}
