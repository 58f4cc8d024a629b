// Is no model ambiguous?

ghost use Rattle.std.specs.Prelude.{length};
ghost use Rattle.engine.specs.Languages.{Decides};
ghost use Rattle.sealing.specs.Questions.{FirstNo, IsAmbiguous, Unambiguous, elements};

use super::elements::{elements_of, numbers_of};
use super::forks::ambiguous;
use engine::ContentAtom;
use models::Tables;

// Whether the number's model is ambiguous.
fn is_ambiguous(tables: Tables<'_, '_, ContentAtom>, number: u8) -> bool
    ensures { Decides result (IsAmbiguous tables.entry.nodes.now tables.entry.models.now number) }
{
    ambiguous(tables.nodes_of(number as usize))
}

// The first element whose model is ambiguous, or none where no model is.
pub fn first_ambiguous(tables: Tables<'_, '_, ContentAtom>) -> Option<u8>
    ensures { let models = elements tables.entry.models.now in FirstNo (Unambiguous tables.entry.nodes.now models) (IsAmbiguous tables.entry.nodes.now models) (length models) result }
{
    let elements = elements_of(tables);
    numbers_of(tables.models).find(|number| is_ambiguous(elements, *number))
}
