// Lent tables of expressions, and where a number's nodes stand in them.

ghost use Rattle.models.specs.Tables.{NodesOf};

use super::node::{Model, Node};

// The nodes of several expressions, one after the other, and where each one's nodes stand; number n has the
// record at n - 1.
#[derive(Clone, Copy, Debug)]
pub struct Tables<'n, 'm, Atom> {
    pub nodes: &'n [Node<Atom>],
    pub models: &'m [Model],
}

impl<'n, Atom: Copy> Tables<'n, '_, Atom> {
    // The nodes of a number's model, or none where the number has no record that lies in the table.
    pub fn nodes_of(&self, number: usize) -> &'n [Node<Atom>]
        ensures { NodesOf self.now.nodes.now self.now.models.now number result.now }
    {
        number
            .checked_sub(1)
            .and_then(|place| self.models.get(place))
            .and_then(|model| self.nodes.get(model.start..model.end))
            .unwrap_or(&[])
    }
}
