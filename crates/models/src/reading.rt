// Which atoms of a node table read a letter.

ghost use Rattle.models.specs.Readers.{Readers};

use super::evaluation::MOST_ATOMS;
use super::node::Node;
use bits::{only, when};
use engine::Alphabet;

// The numbers of the atoms that read the letter, as a set. Atoms past the 63rd have no place in it.
pub fn readers<L: Alphabet>(nodes: &[Node<L::Atom>], letter: L) -> u64
    ensures { Readers L.Alphabet.stands nodes.now letter result }
{
    nodes
        .iter()
        .filter_map(|node| node.atom())
        .zip(1..MOST_ATOMS + 1)
        .fold(0, |set, (atom, number)| {
            set | when(letter.is_among(atom), only(number))
        })
}
