// Why an agreement's text is refused: the question that got a no, and where.

ghost use Rattle.std.specs.Prelude.{◌≡◌};
ghost use Rattle.drafts.specs.Refusals.{number};

// The questions about declarations and forms; each case has the number of its question.
#[derive(Clone, Copy, PartialEq, Eq, Debug)]
pub enum Question {
    Length = 11,
    Form = 12,
    Record = 13,
    Atoms = 14,
    NewName = 15,
    Declared = 16,
    Once = 17,
    Nodes = 18,
    Unambiguous = 19,
    Tree = 20,
    Plain = 21,
}

impl Question {
    // Kept: a question has a number; `u8::from(question)` would not say what the byte is.
    pub fn number(self) -> u8
        ensures { result ≡ number self }
    {
        self as u8
    }
}

// A refusal: the question, and the byte place of what got the no.
#[derive(Clone, Copy, PartialEq, Eq, Debug)]
pub struct Refusal {
    pub question: Question,
    pub place: usize,
}
