// The engine interface: a language for each number, told one letter at a time.

ghost use Rattle.std.specs.Prelude.{ℕ, List, [], ◌∷◌};
ghost use Rattle.engine.specs.Languages.{Answers, Decides, Each, residue};
ghost use Rattle.engine.specs.Trees.{Contents, Plain};

use super::alphabet::{Alphabet, Letter};

// What an engine means is told by two ghost members: the language of each number, and, for a number and a
// state that the engine answered, the rest: the words that may still follow. Numbers are bytes, states are
// words of 64 bits, and the promises hold of all of them. Questions take `&self`, so asking alters nothing.
pub trait Engine {
    type Letter: Alphabet;

    ghost language: { Self → ℕ → List Self.Letter → Type 0 };

    ghost rest: { Self → ℕ → ℕ → List Self.Letter → Type 0 };

    fn open(&self, number: u8) -> Option<u64>
        ensures answer { Answers (language self.now number) (rest self.now number) result }
        ensures real { (w : List Self.Letter) → language self.now number w → Each Self.Letter.Alphabet.real w };

    fn step(&self, number: u8, state: u64, letter: Self::Letter) -> Option<u64>
        ensures { Answers (residue (rest self.now number state) (letter ∷ [])) (rest self.now number) result };

    fn ends(&self, number: u8, state: u64) -> bool
        ensures { Decides result (rest self.now number state []) };
}

// A content engine also says which numbers are plain, and shows the law of contents.
pub trait Content: Engine<Letter = Letter> {
    fn plain(&self, number: u8) -> bool
        ensures answer { Decides result (Plain (Self.Engine.language self.now) number) }
        ensures law { Contents (Self.Engine.language self.now) };
}
