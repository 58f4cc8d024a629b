// Letters in 64 buckets, so that a table can hold, for each of them, the atoms that stand for its letters.

ghost use Rattle.std.specs.Prelude.{◌≡◌, ℕ, ◌<◌};
ghost use Rattle.engine.specs.Languages.{Decides};
ghost use Rattle.positions.specs.Columns.{Meets, letter_bucket, byte_bucket};
ghost use Rattle.std.proofs.Common.{rules};

use engine::{Alphabet, ByteRange, ContentAtom, Letter};

// A kind of letter says which bucket a letter is in, and which buckets an atom's letters are in.
pub trait Bucketed: Alphabet {
    ghost falls: { Self → ℕ };

    fn bucket(self) -> u8
        ensures { result ≡ falls self };

    fn meets(atom: Self::Atom, bucket: u8) -> bool
        ensures { Decides result (Meets Self.Alphabet.stands falls atom bucket) };

    ghost few: { (letter : Self) → falls letter < 64 };
}

impl Bucketed for Letter {
    ghost falls = { letter_bucket };

    ghost few = { Prim.search rules };

    fn bucket(self) -> u8 {
        match self {
            Letter::Text => 0,
            Letter::Element(n) => n % 64,
        }
    }

    fn meets(atom: ContentAtom, bucket: u8) -> bool {
        match atom {
            ContentAtom::Text => bucket == 0,
            ContentAtom::Element(n) => bucket == n % 64,
            ContentAtom::All(last) => bucket <= last && bucket < 64,
        }
    }
}

impl Bucketed for u8 {
    ghost falls = { byte_bucket };

    ghost few = { Prim.search rules };

    fn bucket(self) -> u8 {
        self % 64
    }

    // The first byte of the bucket from the low end on lies so far after it.
    fn meets(atom: ByteRange, bucket: u8) -> bool {
        bucket < 64 && (bucket + 64 - atom.low() % 64) % 64 <= atom.high() - atom.low()
    }
}
