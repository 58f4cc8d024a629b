// What one step needs to know of an expression, as an algebra for the fold.

ghost use Rattle.derivative.specs.Derivation.{derivation, after_state, ends_in};
ghost use Rattle.std.specs.Prelude.{◌≡◌, bit_or};
ghost use Rattle.bits.specs.Sets.{guarded};
ghost use Rattle.models.specs.Folds.{Folded};

use bits::{contains, only, when};
use models::{Algebra, Node, fold};

// What is known of an expression, for a letter and the atoms that may have been read last: whether it
// has the empty word, whether a word may end there, which atoms may read the letter first, and which
// may read it next.
#[derive(Clone, Copy, Debug, Default, PartialEq, Eq)]
pub struct Derived {
    pub nullable: bool,
    pub ends: bool,
    pub first: u64,
    pub next: u64,
}

impl Derived {
    // The atoms that may have read the letter, from a state.
    pub fn reached(self, state: u64) -> u64
        ensures { result ≡ after_state state self }
    {
        when(contains(state, 0), self.first) | self.next
    }

    // The atoms that may read the letter next where the whole may be gone through again.
    fn looping(self) -> u64
        ensures { result ≡ bit_or self.next (guarded self.ends self.first) }
    {
        self.next | when(self.ends, self.first)
    }

    // Whether a word may end in a state.
    pub fn may_end(self, state: u64) -> bool
        ensures { result ≡ ends_in state self }
    {
        contains(state, 0) && self.nullable || self.ends
    }
}

// The algebra of a step: the atoms that may have been read last, and the atoms that read the letter.
#[derive(Clone, Copy, Debug)]
pub struct Derive {
    pub from: u64,
    pub readers: u64,
}

impl<Atom: Copy> Algebra<Atom> for Derive {
    type Value = Derived;

    ghost operations = { λ step. derivation step.from step.readers };

    fn empty_word(&self) -> Derived {
        Derived {
            nullable: true,
            ..Derived::default()
        }
    }

    fn single(&self, number: u8, _atom: Atom) -> Derived {
        Derived {
            ends: contains(self.from, number),
            first: only(number) & self.readers,
            ..Derived::default()
        }
    }

    fn both(&self, left: Derived, right: Derived) -> Derived {
        Derived {
            nullable: left.nullable && right.nullable,
            ends: left.ends && right.nullable || right.ends,
            first: left.first | when(left.nullable, right.first),
            next: left.next | when(left.ends, right.first) | right.next,
        }
    }

    fn either(&self, left: Derived, right: Derived) -> Derived {
        Derived {
            nullable: left.nullable || right.nullable,
            ends: left.ends || right.ends,
            first: left.first | right.first,
            next: left.next | right.next,
        }
    }

    fn any(&self, inside: Derived) -> Derived {
        Derived {
            nullable: true,
            next: inside.looping(),
            ..inside
        }
    }

    fn some(&self, inside: Derived) -> Derived {
        Derived {
            next: inside.looping(),
            ..inside
        }
    }

    fn maybe(&self, inside: Derived) -> Derived {
        Derived {
            nullable: true,
            ..inside
        }
    }
}

// What is known of the expression that the nodes code, if they code one that has at most 63 atoms and
// needs at most 64 working values.
pub fn known<Atom: Copy>(nodes: &[Node<Atom>], from: u64, readers: u64) -> Option<Derived>
    ensures { Folded (derivation from readers) 64 nodes.now result }
{
    let mut work = [Derived::default(); 64];
    fold(&Derive { from, readers }, nodes, &mut work)
}
