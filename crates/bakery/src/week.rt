// The printed week as a document of the agreement.

ghost use Rattle.std.specs.Prelude.{◌≡◌, length};
ghost use Rattle.bakery.specs.Week.{week, WeekValid, WeekTold};
ghost use Rattle.engine.specs.Trees.{traversal};

const WEEK_LENGTH: u32 = 19;

// How many events the week has, which is the count that a pass for it states.
pub fn week_length() -> u32
    ensures answer { result ≡ length (traversal 1 week) }
    ensures valid { WeekValid }
    ensures told { WeekTold }
{
    WEEK_LENGTH
}
