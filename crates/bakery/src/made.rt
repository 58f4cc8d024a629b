// The engines as they are handed out, with the languages that they stand for. They are made here,
// apart from what they are, since a contract beside an engine could not name its language.

ghost use Rattle.std.specs.Prelude.{ℕ};
ghost use Rattle.bakery.specs.Contents.{Holds};
ghost use Rattle.bakery.specs.Values.{Reads};
ghost use Rattle.bakery.specs.contracts.contents.AgreementEngine.TheImpl.{ghosts as agreed};
ghost use Rattle.bakery.specs.contracts.unvalued.NoValuesEngine.TheImpl.{ghosts as unwritten};
ghost use Rattle.bakery.specs.contracts.values.HoursValuesEngine.TheImpl.{ghosts as written};
ghost use Rattle.engine.specs.Languages.{Empty, Same};

use super::contents::Agreement;
use super::unvalued::NoValues;
use super::values::HoursValues;

// The content engine: its language at each number is what such an element may hold.
pub fn agreement() -> Agreement
    ensures { (n : ℕ) → Same (agreed.language result n) (Holds n) }
{
    Agreement {}
}

// The value engine: its language at each number is what the text of such an element has to read.
pub fn hours_values() -> HoursValues
    ensures { (n : ℕ) → Same (written.language result n) (Reads n) }
{
    HoursValues {}
}

// The value engine without values: its language at each number has no word.
pub fn no_values() -> NoValues
    ensures { (n : ℕ) → Empty (unwritten.language result n) }
{
    NoValues {}
}
