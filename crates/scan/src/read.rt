// What was read at a place.

// A value that was read, and the place behind it.
#[derive(Clone, Copy, PartialEq, Eq, Debug)]
pub struct Read<T> {
    pub value: T,
    pub end: usize,
}
