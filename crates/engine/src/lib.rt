// What an engine means. An engine stands for a language for each number and answers questions about
// it one letter at a time. Everything above is proved once, over every engine that keeps this meaning.

#![tactic(auto)]

mod alphabet;
mod engine;
mod range;
mod words;

pub use alphabet::{Alphabet, ContentAtom, Letter};
pub use engine::{Content, Engine};
pub use range::ByteRange;
pub use words::{advance, match_word};
