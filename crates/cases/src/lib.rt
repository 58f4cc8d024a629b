// Concrete documents and histories: what the engines' and the sheet's definitions speak of has instances, and
// a sheet consults both of its engines.

#![tactic(auto)]

mod instances;
mod lists;

pub use instances::definitions_are_inhabited;
pub use lists::{mend_week, told_apart};

#[cfg(test)]
mod tests;
