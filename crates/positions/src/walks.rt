// Walks over the numbers in a set.

ghost use Rattle.std.specs.Prelude.{ℕ, ◌+◌, ◌≤◌, length};
ghost use Rattle.engine.specs.Languages.{Decides};
ghost use Rattle.bits.specs.Sets.{Has};
ghost use Rattle.positions.specs.Walks.{Kept, Reads, Union};

use bits::{Members, only};
use engine::Alphabet;
use models::Node;

// Everything that stands in the rows of the numbers in a set. The rows begin at a place of the table.
pub fn union_of(rows: &[u64], base: usize, set: u64) -> u64
    requires { base + 64 ≤ length rows.now }
    ensures { Union rows.now base set result }
{
    // Kept: a fold over the members left `returns` open: what is in a member's row is in it, and nothing else is.
    let mut union = 0;
    for number in Members::of(set) {
        union |= rows[base + number as usize];
    }
    union
}

// Whether a node is an atom that reads the letter.
fn reads<L: Alphabet>(node: Node<L::Atom>, letter: L) -> bool
    ensures { Decides result (Reads L.Alphabet.stands node letter) }
{
    node.atom().is_some_and(|atom| letter.is_among(atom))
}

// Those numbers in a set whose atom reads the letter. The atoms begin at a place of the table.
pub fn reading<L: Alphabet>(atoms: &[Node<L::Atom>], base: usize, set: u64, letter: L) -> u64
    requires { base + 64 ≤ length atoms.now }
    ensures { Kept L.Alphabet.stands atoms.now base letter set result }
{
    let mut found = 0;
    for number in Members::of(set) {
        if reads(atoms[base + number as usize], letter) {
            found |= only(number);
        }
    }
    found
}
