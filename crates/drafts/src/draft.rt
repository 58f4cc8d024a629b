// Drafts: declarations that were read and wait to be sealed.

mod filling;
mod parts;

ghost use Rattle.std.specs.Prelude.{◌≡◌, true, length};
ghost use Rattle.models.specs.declared.node.Node.TheVariants.{Unused};
ghost use Rattle.scan.specs.Lists.{zero_entry};
ghost use Rattle.drafts.specs.Drafted.{all_yes, declarations, text_models};
ghost use Rattle.drafts.specs.Layouts.{all_code, runs_from};
ghost use Rattle.drafts.specs.Tables.{entries_of, filled, zero_model};

use engine::ContentAtom;
pub use filling::BlankTables;
use models::{Model, Node};
use scan::Entry;

// A text of declarations, every question about which got a yes, and the tables of what it reads as: the nodes
// of its models, where each model's nodes stand, and where each declaration and its name stand. Places that are
// not used are zero. The tables are held for reading only.
// Kept: the lent tables are held whole, since their places past the count are promised to be zero.
#[derive(Drop)]
pub struct Draft<'t, 'n, 'm, 'e> {
    text: &'t [u8],
    nodes: &'n [Node<ContentAtom>],
    models: &'m [Model],
    entries: &'e [Entry],
    count: usize,
    ghost asked: { all_yes text.now ≡ true },
    ghost counted: { count ≡ length (declarations text.now) },
    ghost coded: { nodes.now ≡ filled Unused (length nodes.now) (all_code (text_models text.now)) },
    ghost placed: { models.now ≡ filled zero_model (length models.now) (runs_from 0 (text_models text.now)) },
    ghost named: { entries.now ≡ filled zero_entry (length entries.now) (entries_of text.now (declarations text.now)) },
}
