// Sealed declarations, which hold their tables for reading only.

mod making;

ghost use Rattle.std.specs.Prelude.{◌≡◌, length};
ghost use Rattle.drafts.specs.Drafted.{declarations, text_models};
ghost use Rattle.drafts.specs.Layouts.{all_code, runs_from};
ghost use Rattle.drafts.specs.Tables.{entries_of, filled};
ghost use Rattle.models.specs.declared.node.Node.TheVariants.{Unused};

use scan::Entry;
use sealed::Sealed;

// A text of declarations, where each declaration and its name stand, and the content engine of its models.
#[derive(Drop)]
pub struct SealedDeclarations<'t, 'n, 'm, 'e> {
    text: &'t [u8],
    entries: &'e [Entry],
    tables: Sealed<'n, 'm>,
    ghost named: { entries.now ≡ entries_of text.now (declarations text.now) },
    ghost coded: { ∥ tables.engine.tables.nodes.now ≡ filled Unused (length tables.engine.tables.nodes.now) (all_code (text_models text.now)) ∥₁ },
    ghost placed: { ∥ tables.engine.tables.models.now ≡ runs_from 0 (text_models text.now) ∥₁ },
}
