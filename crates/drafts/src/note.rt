// The first pass over a text of declarations: is each item of the form, and where do the declarations stand?

ghost use Rattle.std.specs.Prelude.{◌≡◌, ◌+◌, ◌-◌, ◌^◌, ◌<◌, ◌≢◌, Some, slice_set};
ghost use Rattle.drafts.specs.Noted.{Notes};

use super::noted::Noted;
use declarations::{Piece, item_at};
use scan::{Entry, put};

// Notes one declaration more, with its entry in the table if it has a place there.
fn note_one(entries: &mut [Entry], room: usize, noted: Noted, entry: Entry) -> Noted
    ensures written { entries.new ≡ slice_set entries.old noted.count entry }
    ensures counted { noted.count < 2 ^ 64 - 1 → result.count ≡ noted.count + 1 }
    ensures here { noted.count ≡ room → result.beyond ≡ Some entry.place }
    ensures later { (noted.count ≢ room) → result.beyond ≡ noted.beyond }
{
    put(entries, noted.count, entry);
    Noted {
        count: noted.count.saturating_add(1),
        beyond: if noted.count == room {
            Some(entry.place)
        } else {
            noted.beyond
        },
    }
}

// Notes the declarations of a text, or answers the place where it is not of the form.
pub fn note(text: &[u8], entries: &mut [Entry], room: usize) -> Result<Noted, usize>
    ensures { Notes text.now room entries.old entries.new result }
{
    // Kept: an item's place is known only when the item before it was read, so there is no list to go over.
    let mut at = 0;
    let mut noted = Noted {
        count: 0,
        beyond: None,
    };
    loop {
        match item_at(text, at, &[]) {
            Piece::Blanks(end) => at = end,
            Piece::Comment(end) => at = end,
            Piece::Declaration(told) => {
                let entry = Entry {
                    place: at,
                    name: told.name,
                };
                noted = note_one(entries, room, noted, entry);
                at = told.end;
            }
            Piece::End => return Ok(noted),
            Piece::Unread => return Err(at),
        }
    }
}
