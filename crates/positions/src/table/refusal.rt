// The number of the refusal to make a follow table.

ghost use Rattle.std.specs.Prelude.{◌≡◌};
ghost use Rattle.positions.specs.Refusals.{number};

use super::filling::TooFewPlaces;

const PLACES: u8 = 22;

impl TooFewPlaces {
    // The number of the question that got a no.
    // Kept: a refusal has a number; u8::from(refusal) would not say what the byte is.
    pub fn number(self) -> u8
        ensures { result ≡ number self }
    {
        PLACES
    }
}
