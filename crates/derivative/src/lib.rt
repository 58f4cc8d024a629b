// The derivative engine: each step is worked out from the node table.

#![tactic(auto)]

mod derive;
mod steps;

pub use derive::{Derive, Derived, known};
pub use steps::{BEGINNING, Derivatives};
