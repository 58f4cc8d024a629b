// What is asked of content models before they are sealed: no model is ambiguous, and every element has
// a valid tree, values left aside.

#![tactic(auto)]

mod ambiguity;
mod completion;
mod elements;
mod forks;
mod trees;

pub use ambiguity::first_ambiguous;
pub use elements::numbers_of;
pub use trees::first_without_tree;
