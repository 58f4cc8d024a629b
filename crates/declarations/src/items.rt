// The items of a text, one at a time.

ghost use Rattle.declarations.specs.Answers.{PieceAt, numbered_names};

use super::declared::Piece;
use super::reading::declaration_at;
use scan::{Entry, blank_at, comment_end, skip_blanks};

// The item that stands at the place.
pub fn item_at(text: &[u8], at: usize, entries: &[Entry]) -> Piece
    ensures { PieceAt text.now (numbered_names text.now entries.now) at result }
{
    if at >= text.len() {
        return Piece::End;
    }
    if blank_at(text, at) {
        return Piece::Blanks(skip_blanks(text, at));
    }
    if let Some(end) = comment_end(text, at) {
        return Piece::Comment(end);
    }
    declaration_at(text, at, entries).map_or(Piece::Unread, |told| Piece::Declaration(told))
}
