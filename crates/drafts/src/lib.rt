// Drafts: element declarations read into tables, with every question asked of their text.

#![tactic(auto)]

mod ask;
mod draft;
mod note;
mod noted;
mod reading;
mod refusal;
mod write;

pub use draft::{BlankTables, Draft};
pub use reading::{ZERO_ENTRY, ZERO_MODEL, read_into};
pub use refusal::{Question, Refusal};
