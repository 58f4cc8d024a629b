// What a sheet answers: refusals by their numbers, and the answers of a recorded history.

ghost use Rattle.std.specs.Fmt.{decimal};
ghost use Rattle.std.specs.Prelude.{◌≡◌, ◌++◌, codes, Some};
ghost use Rattle.calls.specs.Replies.{number};

use std::fmt;

// A refusal; each case has the number of the question that got a no.
#[derive(Clone, Copy, PartialEq, Eq, Debug)]
pub enum Refusal {
    NotFresh = 31,
    RootUndeclared = 32,
    ValueNotPlain = 33,
    NotUnderway = 34,
    NotKnown = 35,
    Offending = 36,
    TooDeep = 37,
    TooMany = 38,
    RootOpen = 39,
}

impl Refusal {
    // Kept: a refusal has a number; u8::from(refusal) would not say what the byte is.
    pub fn number(self) -> u8
        ensures { result ≡ number self }
    {
        self as u8
    }
}

impl fmt::Display for Refusal {
    ghost output = { λ refusal. Some (codes "refused " ++ decimal (number refusal)) };

    fn fmt<W: fmt::Write>(&self, f: &mut fmt::Formatter<W>) -> fmt::Result {
        let number = self.number();
        write!(f, "refused {number}")
    }
}

// What a call gets that is not refused: it is accepted, or, as a finish, gives the pass with its two numbers.
#[derive(Clone, Copy, PartialEq, Eq, Debug)]
pub enum Granted {
    Accepted,
    Passed { root: u8, events: u32 },
}

// The answer to one call of a recorded history.
pub type Answer = Result<Granted, Refusal>;
