// Content models as tables of nodes, and the one loop that computes something over them.

#![tactic(auto)]

mod algebra;
mod evaluation;
mod node;
mod reading;
mod stack;
mod tables;

pub use algebra::Algebra;
pub use evaluation::fold;
pub use node::{Model, Node};
pub use reading::readers;
pub use tables::Tables;
