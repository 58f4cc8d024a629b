// The columns of a follow table, worked out from the atoms that it has.

ghost use Rattle.std.specs.Prelude.{◌≡◌, ℕ, ◌+◌, ◌*◌, ◌/◌, ◌%◌, ◌<◌, length, slice_index_or};
ghost use Rattle.engine.specs.Languages.{Decides};
ghost use Rattle.models.specs.declared.node.Node.TheVariants.{Unused};
ghost use Rattle.positions.specs.Columns.{Columns, Sorted, Sorts};

use super::buckets::Bucketed;
use bits::only;
use models::Node;

// The node at a place, or an unused one past the end.
fn node_at<Atom: Copy>(nodes: &[Node<Atom>], place: usize) -> Node<Atom>
    ensures { result ≡ slice_index_or nodes.now place Unused }
{
    nodes.get(place).copied().unwrap_or(Node::Unused)
}

// Whether a node is an atom that stands for some letter of the bucket.
fn sorts<L: Bucketed>(node: Node<L::Atom>, bucket: u8) -> bool
    ensures { Decides result (Sorts L.Alphabet.stands L.Bucketed.falls node bucket) }
{
    node.atom().is_some_and(|atom| L::meets(atom, bucket))
}

// The column at a place: those of the 64 atoms there that stand for some letter of bucket `place % 64`.
fn column_at<L: Bucketed>(atoms: &[Node<L::Atom>], place: usize) -> u64
    ensures { Sorted L.Alphabet.stands L.Bucketed.falls atoms.now (place / 64 * 64) (place % 64) 64 result }
{
    let base = place / 64 * 64;
    let bucket = (place % 64) as u8;
    let mut found = 0;
    // Kept: a fold over the atoms beside their numbers left open what its closure adds (`meets` is no function).
    for number in 0..64 {
        if sorts::<L>(node_at(atoms, base + number as usize), bucket) {
            found |= only(number);
        }
    }
    found
}

// Writes the column of every place.
pub fn write_columns<L: Bucketed>(atoms: &[Node<L::Atom>], columns: &mut [u64])
    ensures { Columns L.Alphabet.stands L.Bucketed.falls atoms.now columns.new }
{
    for (place, column) in columns.iter_mut().enumerate() {
        *column = column_at::<L>(atoms, place);
    }
}
