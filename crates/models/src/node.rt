// The nodes of an expression, members before their operation, and where an expression's nodes stand.

ghost use Rattle.std.specs.Prelude.{◌≡◌};
ghost use Rattle.models.specs.Readers.{atom_in};

// One node. `Unused` is the zero of a table: it codes nothing.
#[derive(Clone, Copy, Debug, Default, PartialEq, Eq)]
pub enum Node<A> {
    #[default]
    Unused,
    Empty,
    Atom(A),
    Seq,
    Alt,
    Star,
    Plus,
    Opt,
}

impl<A: Copy> Node<A> {
    // The atom that the node is, if it is one.
    pub fn atom(self) -> Option<A>
        ensures { result ≡ atom_in self }
    {
        match self {
            Node::Atom(atom) => Some(atom),
            _ => None,
        }
    }
}

// The places of one expression's nodes in a table: from start up to, and without, end.
#[derive(Clone, Copy, Debug, Default, PartialEq, Eq)]
pub struct Model {
    pub start: usize,
    pub end: usize,
}
