// What is told of a declaration.

use scan::Span;

// Where the name of the declaration stands; where the declaration ends; how many atoms and nodes its model has; whether
// each name in its content has a number; and whether no name stands twice in its mixed model.
// Kept: `known` and `distinct` are facts that are asked by themselves; no value hangs on them.
#[derive(Clone, Copy, PartialEq, Eq, Debug)]
pub struct Declared {
    pub name: Span,
    pub end: usize,
    pub atoms: usize,
    pub nodes: usize,
    pub known: bool,
    pub distinct: bool,
}

// What stands at a place of a text: blanks or a comment up to a place, a declaration, nothing since the text ends
// there, or something else.
// Kept: five answers told apart by one match; options and results would nest.
#[derive(Clone, Copy, PartialEq, Eq, Debug)]
pub enum Piece {
    Blanks(usize),
    Comment(usize),
    Declaration(Declared),
    End,
    Unread,
}
