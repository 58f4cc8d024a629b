// The items of a document, read one by one from its bytes: tags, comments, references and runs of text. Whether the tags
// fit each other is not asked here.

#![tactic(auto)]

mod counting;
mod item;
mod markup;
mod references;
mod runs;

ghost use Rattle.std.specs.Prelude.{drop};
ghost use Rattle.items.specs.Places.{ItemOf};
ghost use Rattle.items.specs.Readers.{read_item};
ghost use Rattle.items.specs.Examples.{Worked};
ghost use Rattle.items.specs.Theorems.{ItemsAreRead};

pub use counting::count_items;
pub use item::{Item, Kind};
use markup::markup_at;
use references::reference_at;
pub use runs::is_blank_run;
use runs::run_at;
use scan::peek;

// The item that stands at the place, or none.
pub fn item_at(text: &[u8], at: usize) -> Option<Item>
    ensures { ItemOf text.now at (read_item (drop at text.now)) result }
{
    match peek(text, at)? {
        b'<' => markup_at(text, at),
        b'&' => reference_at(text, at),
        _ => run_at(text, at),
    }
}

// Items and whole texts are read exactly as the grammar says, and in one way; and two texts worked out.
pub fn items_are_read()
    ensures theorem { ItemsAreRead }
    ensures worked { Worked }
{}
