// What is kept of an open element.

// An open element: its number, what its content still admits, and what its value does if it has one.
#[derive(Clone, Copy, Default)]
pub struct Frame {
    pub number: u8,
    pub content: u64,
    pub value: Option<u64>,
}
