// The content engine over tables that were checked: its languages are those of the tables, and it
// shows the law of contents.

#![tactic(auto)]

mod questions;
mod refusal;
mod sealed;
mod text;

pub use questions::{Unsealed, check};
pub use sealed::Sealed;

#[cfg(test)]
mod tests;
