// The one line that a program prints of its verdict, as a value and as the bytes of that value in a lent buffer.

#![tactic(auto)]

mod lines;
mod put;
#[cfg(test)]
mod tests;
mod writing;

pub use lines::{AgreementLayer, LONGEST_LINE, LONGEST_NAME, Layer, Line};
pub use put::Writer;
