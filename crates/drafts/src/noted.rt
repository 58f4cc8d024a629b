// What a pass over the declarations of a text counts.

// How many declarations there are, and the place of the first one for which there was no room, if there is one.
#[derive(Clone, Copy, PartialEq, Eq, Debug)]
pub struct Noted {
    pub count: usize,
    pub beyond: Option<usize>,
}
