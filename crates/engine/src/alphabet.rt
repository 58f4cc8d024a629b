// The two kinds of letter, and which letters an atom of an expression stands for.

ghost use Rattle.std.specs.Prelude.{◌<◌, ◌≤◌};
ghost use Rattle.engine.specs.Atoms.{StandsFor, InRange, content_sample, byte_sample};
ghost use Rattle.engine.specs.Languages.{Decides};
ghost use Rattle.std.proofs.Common.{rules};

use super::range::ByteRange;

// A letter of a content word: a text piece, or a child element by its number.
#[derive(Clone, Copy, PartialEq, Eq, Debug)]
pub enum Letter {
    Text,
    Element(u8),
}

// An atom of a content model: text, one element, or text and every element from 1 to a last one.
#[derive(Clone, Copy, PartialEq, Eq, Debug)]
pub enum ContentAtom {
    Text,
    Element(u8),
    All(u8),
}

// A kind of letter says which letters there are and which of them an atom stands for. Every atom
// stands for some letter.
pub trait Alphabet: Copy {
    type Atom: Copy;

    ghost stands: { Self.Atom → Self → Type 0 };

    ghost real: { Self → Type 0 };

    ghost sample: { Self.Atom → Self };

    fn is_among(self, atom: Self::Atom) -> bool
        ensures { Decides result (stands atom self) };

    ghost sampled: { (atom : Self.Atom) → stands atom (sample atom) };

    ghost stands_for_real: { (atom : Self.Atom) (letter : Self) → stands atom letter → real letter };
}

impl Alphabet for Letter {
    type Atom = ContentAtom;

    ghost stands = { StandsFor };

    ghost real = { λ _. Unit {0} };

    ghost sample = { content_sample };

    ghost sampled = { Prim.search rules };

    ghost stands_for_real = { Prim.search rules };

    fn is_among(self, atom: ContentAtom) -> bool {
        match (atom, self) {
            (ContentAtom::Text, Letter::Text) => true,
            (ContentAtom::Element(m), Letter::Element(n)) => m == n,
            (ContentAtom::All(_), Letter::Text) => true,
            (ContentAtom::All(last), Letter::Element(n)) => 1 <= n && n <= last,
            _ => false,
        }
    }
}

impl Alphabet for u8 {
    type Atom = ByteRange;

    ghost stands = { InRange };

    ghost real = { λ b. b < 256 };

    ghost sample = { byte_sample };

    ghost sampled = { Prim.search rules };

    ghost stands_for_real = { Prim.search rules };

    fn is_among(self, atom: ByteRange) -> bool {
        atom.low() <= self && self <= atom.high()
    }
}
