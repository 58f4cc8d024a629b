// The worked examples as one statement about the definitions.

#![tactic(auto)]

ghost use Rattle.std.specs.Prelude.{◌≡◌};
ghost use Rattle.worked.specs.Examples.{Worked};

const STATEMENTS: u8 = 11;

// How many statements the worked examples make; all of them hold.
pub fn worked_examples() -> u8
    ensures answer { result ≡ 11 }
    ensures law { Worked }
{
    STATEMENTS
}
