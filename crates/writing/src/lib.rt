// What an expression is read from and written to, apart from any grammar: joints and marks, and a lent table of nodes
// that is written node by node.

#![tactic(auto)]

mod signs;
mod writer;

pub use signs::{Joint, Mark};
pub use writer::Writer;
