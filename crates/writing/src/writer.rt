// Writing nodes into a lent table, one behind the other, and counting them.

ghost use Rattle.std.specs.Prelude.{◌≡◌, [], ◌∷◌};
ghost use Rattle.writing.specs.Wrote.{Counts, Wrote, atoms_in};

use models::Node;
use scan::put;

// A lent table, with the place of the next node, how many atoms were written, and what else is told of them. What has no
// place in the table is left out, but counted.
#[derive(Drop)]
pub struct Writer<'n, A, T> {
    nodes: &'n mut [Node<A>],
    pub used: usize,
    pub atoms: usize,
    pub told: T,
}

// So many atoms, and the node if it is one.
fn counted<A: Copy>(atoms: usize, node: Node<A>) -> usize
    ensures { Counts atoms (atoms_in (node ∷ [])) result }
{
    match node {
        Node::Atom(_) => atoms.saturating_add(1),
        _ => atoms,
    }
}

impl<'n, A: Copy, T: Copy> Writer<'n, A, T> {
    // A table that is to be written from a place on.
    pub fn new(nodes: &'n mut [Node<A>], used: usize, told: T) -> Writer<'n, A, T>
        ensures same_table { result.nodes.ghost_name ≡ nodes.entry.ghost_name }
        ensures nodes { result.nodes.now ≡ nodes.old }
        ensures used { result.used ≡ used }
        ensures atoms { result.atoms ≡ 0 }
        ensures told { result.told ≡ told }
    {
        Writer {
            nodes,
            used,
            atoms: 0,
            told,
        }
    }

    // Writes one node more.
    pub fn put(&mut self, node: Node<A>)
        ensures same_table { self.new.nodes.ghost_name ≡ self.old.nodes.ghost_name }
        ensures wrote { Wrote self.old (node ∷ []) self.new }
        ensures told { self.new.told ≡ self.old.told }
    {
        put(self.nodes, self.used, node);
        self.used = self.used.saturating_add(1);
        self.atoms = counted(self.atoms, node);
    }
}
