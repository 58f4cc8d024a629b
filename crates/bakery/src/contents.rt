// The content engine: which children and text an element may hold, and in which order.

ghost use Rattle.std.specs.Prelude.{[], ◌∷◌};
ghost use Rattle.bakery.specs.Contents.{Holds};
ghost use Rattle.bakery.specs.Rests.{ContentLeft};
ghost use Rattle.engine.specs.Languages.{Answers, residue};
ghost use Rattle.engine.specs.declared.alphabet.Letter.TheVariants.{Element};

use super::elements::{CORRECTION, HOURS, LOCK, SHEET, SHIFT};
use engine::{Content, Engine, Letter};

// A state says what may still come, whatever element is open.
// Kept: the engine interface hands a state over as a word of 64 bits; an enum would spell these numbers twice more.

// All of a sheet.
const WHOLE: u64 = 1;

// Further shifts, and what closes the sheet.
const SHIFTS: u64 = 2;

// What closes the sheet: corrections and the lock.
const CORRECTIONS: u64 = 3;

// One entry of hours.
const ENTRY: u64 = 4;

// Text.
const TEXTS: u64 = 5;

// Nothing more.
const NOTHING: u64 = 6;

// The bakery's agreement on what a sheet holds.
#[derive(Clone, Copy)]
pub struct Agreement {}

impl Engine for Agreement {
    type Letter = Letter;

    ghost language = { λ _. Holds };

    ghost rest = { λ _ _. ContentLeft };

    fn open(&self, number: u8) -> Option<u64> {
        match number {
            SHEET => Some(WHOLE),
            SHIFT | CORRECTION => Some(ENTRY),
            LOCK => Some(NOTHING),
            HOURS => Some(TEXTS),
            _ => None,
        }
    }

    fn step(&self, _number: u8, state: u64, letter: Letter) -> Option<u64> {
        match letter {
            Letter::Element(child) => after_child(state, child),
            Letter::Text if state == TEXTS => Some(TEXTS),
            Letter::Text => None,
        }
    }

    fn ends(&self, _number: u8, state: u64) -> bool {
        state == TEXTS || state == NOTHING
    }
}

impl Content for Agreement {
    fn plain(&self, number: u8) -> bool {
        number == HOURS
    }
}

// The state after a child element, or none where that child may not come.
fn after_child(state: u64, child: u8) -> Option<u64>
    ensures { Answers (residue (ContentLeft state) (Element child ∷ [])) ContentLeft result }
{
    match (state, child) {
        (WHOLE | SHIFTS, SHIFT) => Some(SHIFTS),
        (SHIFTS | CORRECTIONS, CORRECTION) => Some(CORRECTIONS),
        (SHIFTS | CORRECTIONS, LOCK) => Some(NOTHING),
        (ENTRY, HOURS) => Some(NOTHING),
        _ => None,
    }
}
