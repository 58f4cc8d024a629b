// The small parts of texts that every reader needs: blanks, names, words and comments, and tables of names. A reading
// stands at a place of the text and answers the place behind what it read; a place may be any, also past the end.

#![tactic(auto)]

mod blanks;
mod bytes;
mod comments;
mod entry;
mod names;
mod numbers;
mod read;
mod span;
mod tables;
mod words;

pub use blanks::{blank_at, skip_blanks};
pub use bytes::{byte_is, is_blank, is_initial, is_name_byte, is_text_byte, peek, rest};
pub use comments::comment_end;
pub use entry::Entry;
pub use names::{MOST_NAME_BYTES, name_end};
pub use numbers::{MOST_NAMES, number_of, same_name};
pub use read::Read;
pub use span::Span;
pub use tables::put;
pub use words::word_end;
