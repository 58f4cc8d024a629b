// The entries of a follow table, worked out from the node table.

ghost use Rattle.std.specs.Prelude.{ℕ, ◌<◌, length};
ghost use Rattle.models.specs.declared.node.Node.TheVariants.{Unused};
ghost use Rattle.positions.specs.Following.{AtomAt, Atoms, RowAt, Rows};

use bits::{only, when};
use derivative::known;
use models::{Node, Tables};

// The row at a place: what may be read right after atom `place % 64` of number `place / 64 + 1`, and 0 where a word may
// end there.
fn row_at<Atom: Copy>(tables: Tables<'_, '_, Atom>, place: usize) -> u64
    ensures { RowAt tables.entry.nodes.now tables.entry.models.now place result }
{
    let from = only((place % 64) as u8);
    known(tables.nodes_of(place / 64 + 1), from, u64::MAX).map_or(
        0,
        |derived| derived.reached(from) | when(derived.may_end(from), only(0)),
    )
}

// The atom with a number, or an unused node where there is none.
// Kept: what is written into the table is a node, and its zero is the unused one.
pub fn atom_of<Atom: Copy>(nodes: &[Node<Atom>], number: usize) -> Node<Atom>
    ensures { AtomAt nodes.now number result }
{
    let Some(before) = number.checked_sub(1) else {
        return Node::Unused;
    };
    nodes
        .iter()
        .filter_map(|node| node.atom())
        .nth(before)
        .map_or(Node::Unused, |atom| Node::Atom(atom))
}

// Writes the row of every place.
pub fn write_rows<Atom: Copy>(tables: Tables<'_, '_, Atom>, rows: &mut [u64])
    ensures { Rows tables.entry.nodes.now tables.entry.models.now rows.new }
{
    for (place, row) in rows.iter_mut().enumerate() {
        *row = row_at(tables, place);
    }
}

// Writes the atom of every place.
pub fn write_atoms<Atom: Copy>(tables: Tables<'_, '_, Atom>, atoms: &mut [Node<Atom>])
    ensures { Atoms tables.entry.nodes.now tables.entry.models.now atoms.new }
{
    for (place, atom) in atoms.iter_mut().enumerate() {
        *atom = atom_of(tables.nodes_of(place / 64 + 1), place % 64);
    }
}
