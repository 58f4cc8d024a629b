// Where a declared name stands.

use super::span::Span;

// The record of a declaration: its place, and the places of its name.
#[derive(Clone, Copy, PartialEq, Eq, Debug)]
pub struct Entry {
    pub place: usize,
    pub name: Span,
}
