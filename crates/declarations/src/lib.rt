// Reads element declarations: the one that stands at a place of a text, what is told of it, and the nodes of its model.

#![tactic(auto)]

mod content;
mod declared;
mod items;
mod marks;
mod mixed;
mod model;
mod nesting;
mod reading;
mod source;

pub use declared::{Declared, Piece};
pub use items::item_at;
pub use reading::{declaration_at, write_model};
