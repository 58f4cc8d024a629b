// The value engine: which texts count as hours.

ghost use Rattle.bakery.specs.Values.{Reads};
ghost use Rattle.bakery.specs.Rests.{ValueLeft};

use super::elements::HOURS;
use engine::Engine;

// A state says what may still come.
// Kept: the engine interface hands a state over as a word of 64 bits; an enum would spell these numbers twice more.

// All of the hours.
const WHOLE: u64 = 1;

// Further digits, and perhaps hundredths.
const DIGITS: u64 = 2;

// Two digits.
const TWO: u64 = 3;

// One digit.
const ONE: u64 = 4;

// Nothing more.
const NOTHING: u64 = 5;

// The bakery's agreement on how hours are written.
#[derive(Clone, Copy)]
pub struct HoursValues {}

impl Engine for HoursValues {
    type Letter = u8;

    ghost language = { λ _. Reads };

    ghost rest = { λ _ _. ValueLeft };

    fn open(&self, number: u8) -> Option<u64> {
        (number == HOURS).then_some(WHOLE)
    }

    fn step(&self, _number: u8, state: u64, letter: u8) -> Option<u64> {
        match (state, letter) {
            (WHOLE | DIGITS, b'0'..=b'9') => Some(DIGITS),
            (DIGITS, b'.') => Some(TWO),
            (TWO, b'0'..=b'9') => Some(ONE),
            (ONE, b'0'..=b'9') => Some(NOTHING),
            _ => None,
        }
    }

    fn ends(&self, _number: u8, state: u64) -> bool {
        state == DIGITS || state == NOTHING
    }
}
