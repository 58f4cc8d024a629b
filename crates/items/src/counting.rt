// Whole texts.

ghost use Rattle.items.specs.Places.{Counted};

use super::item_at;

// How many items the text is, or the place up to which it is a list of items and where none stands.
pub fn count_items(text: &[u8]) -> Result<usize, usize>
    ensures { Counted text.now result }
{
    // Kept: an item's place is known only when the item before it was read, so there is no list to go over.
    let mut at = 0;
    let mut count = 0;
    while at < text.len() {
        let Some(item) = item_at(text, at) else {
            return Err(at);
        };
        at = item.end;
        count += 1;
    }
    Ok(count)
}
