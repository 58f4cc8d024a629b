// Reads value forms, one a line: an element's name, and how its text has to be written.

#![tactic(auto)]

mod lines;
mod nesting;
mod numerals;
mod openings;

pub use lines::{Lined, form_at, write_form};
