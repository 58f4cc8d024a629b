// Instances of the definitions.

ghost use Rattle.std.specs.Prelude.{T};
ghost use Rattle.bakery.specs.Values.{Reads};
ghost use Rattle.cases.specs.Histories.{WeekPasses};
ghost use Rattle.cases.specs.Refusals.{EachRefusal};
ghost use Rattle.engine.specs.Trees.{no_values};

// The week is a valid document whose history ends with a pass, with values for hours and with none, and each
// refusal but the one for too many events ends a right history.
pub fn definitions_are_inhabited() -> bool
    ensures answer { T result }
    ensures week { WeekPasses Reads }
    ensures freely { WeekPasses no_values }
    ensures refusals { EachRefusal }
{
    true
}
