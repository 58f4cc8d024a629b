// The smallest example of how to write an engine: the agreement of a bakery, whose weekly sheet holds
// shifts, corrections and a lock, as a content engine and a value engine written by hand.

#![tactic(auto)]

mod contents;
mod elements;
mod made;
mod unvalued;
mod values;
mod week;

pub use contents::Agreement;
pub use elements::{CORRECTION, HOURS, LOCK, SHEET, SHIFT};
pub use made::{agreement, hours_values, no_values};
pub use unvalued::NoValues;
pub use values::HoursValues;
pub use week::week_length;

#[cfg(test)]
mod tests;
