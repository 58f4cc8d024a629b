// The agreement of one element that holds text and itself, as often and as deep as one likes: it has room
// for sheets that run into every limit.

ghost use Rattle.limits.specs.Nest.{Nests, NestLeft};

use engine::{Content, Engine, Letter};

// Kept: engines and sheets take an element by its number, a byte; an enum would be turned into one at each use.
pub const NEST: u8 = 1;

// The only state.
// Kept: the engine interface hands a state over as a word of 64 bits; an enum would spell this number twice more.
const ANYTHING: u64 = 0;

#[derive(Clone, Copy)]
pub struct Nest {}

impl Engine for Nest {
    type Letter = Letter;

    ghost language = { λ _. Nests };

    ghost rest = { λ _. NestLeft };

    fn open(&self, number: u8) -> Option<u64> {
        (number == NEST).then_some(ANYTHING)
    }

    fn step(&self, number: u8, state: u64, letter: Letter) -> Option<u64> {
        if number != NEST || state != ANYTHING {
            return None;
        }
        match letter {
            Letter::Text => Some(ANYTHING),
            Letter::Element(child) => self.open(child),
        }
    }

    fn ends(&self, number: u8, state: u64) -> bool {
        number == NEST && state == ANYTHING
    }
}

impl Content for Nest {
    fn plain(&self, _number: u8) -> bool {
        false
    }
}
