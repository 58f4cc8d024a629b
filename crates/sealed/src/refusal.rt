// The numbers of the refusals to seal tables.

ghost use Rattle.std.specs.Prelude.{◌≡◌};
ghost use Rattle.sealed.specs.Refusals.{number};

use super::questions::Unsealed;

const ELEMENTS: u8 = 13;

const AMBIGUITY: u8 = 19;

const TREES: u8 = 20;

impl Unsealed {
    // The number of the question that got a no. That an element has a model has no number of its own.
    // Kept: a refusal has a number; Option::from(refusal) would not say what the byte is.
    pub fn number(self) -> Option<u8>
        ensures { result ≡ number self }
    {
        match self {
            Unsealed::TooMany => Some(ELEMENTS),
            Unsealed::NoModel(_) => None,
            Unsealed::Ambiguous(_) => Some(AMBIGUITY),
            Unsealed::NoTree(_) => Some(TREES),
        }
    }
}
