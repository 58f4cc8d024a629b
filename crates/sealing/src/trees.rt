// Has every element a valid tree, values left aside?

ghost use Rattle.std.specs.Prelude.{length};
ghost use Rattle.sealing.specs.Questions.{FirstNo, HasTree, HasNoTree, elements};

use super::completion::completed;
use super::elements::{elements_of, numbers_of};
use bits::contains;
use engine::ContentAtom;
use models::Tables;

// The first element that has no valid tree, values left aside, or none where each has one.
pub fn first_without_tree(tables: Tables<'_, '_, ContentAtom>) -> Option<u8>
    ensures { let models = elements tables.entry.models.now in FirstNo (HasTree tables.entry.nodes.now models) (HasNoTree tables.entry.nodes.now models) (length models) result }
{
    let set = completed(elements_of(tables));
    numbers_of(tables.models).find(|number| !contains(set, *number))
}
