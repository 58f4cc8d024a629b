// The smallest value engine: no element has a text that has to read as anything.

ghost use Rattle.engine.specs.Trees.{no_values};

use engine::Engine;

// No agreement on how any text is written.
#[derive(Clone, Copy)]
pub struct NoValues {}

impl Engine for NoValues {
    type Letter = u8;

    ghost language = { λ _. no_values };

    ghost rest = { λ _ _. no_values };

    fn open(&self, _number: u8) -> Option<u64> {
        None
    }

    fn step(&self, _number: u8, _state: u64, _letter: u8) -> Option<u64> {
        None
    }

    fn ends(&self, _number: u8, _state: u64) -> bool {
        false
    }
}
