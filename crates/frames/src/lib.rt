// One open element, held as a frame: what the two engines answer about it, and what they agree on. Nothing
// here knows of a sheet or of the elements around the open one.

#![tactic(auto)]

mod ask;
mod engines;
mod frame;
mod next;

pub use ask::{is_declared, read_letter};
pub use engines::Engines;
pub use frame::Frame;
