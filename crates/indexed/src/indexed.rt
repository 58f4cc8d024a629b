// Sealed tables with their follow table, and the content engine that they are.

mod making;

ghost use Rattle.std.specs.Prelude.{◌≡◌};
ghost use Rattle.engine.specs.Atoms.{StandsFor};
ghost use Rattle.models.specs.Tables.{ModelWords, ModelRest};

use engine::{Content, Engine, Letter};
use positions::ContentTable;
use sealed::Sealed;

// Sealed tables, and the follow table of the same nodes and records with its columns.
#[derive(Drop)]
pub struct Indexed<'n, 'm, 'r, 'a, 'c> {
    sealed: Sealed<'n, 'm>,
    table: ContentTable<'n, 'm, 'r, 'a, 'c>,
    ghost nodes: { ∥ table.table.tables.nodes.now ≡ sealed.engine.tables.nodes.now ∥₁ },
    ghost models: { ∥ table.table.tables.models.now ≡ sealed.engine.tables.models.now ∥₁ },
}

impl Engine for Indexed<'_, '_, '_, '_, '_> {
    type Letter = Letter;

    ghost language = { λ self. ModelWords StandsFor self.sealed.engine.tables.nodes.now self.sealed.engine.tables.models.now };

    ghost rest = { λ self. ModelRest StandsFor self.sealed.engine.tables.nodes.now self.sealed.engine.tables.models.now };

    fn open(&self, number: u8) -> Option<u64> {
        self.table.open(number)
    }

    fn step(&self, number: u8, state: u64, letter: Letter) -> Option<u64> {
        self.table.step(number, state, letter)
    }

    fn ends(&self, number: u8, state: u64) -> bool {
        self.table.ends(number, state)
    }
}

impl Content for Indexed<'_, '_, '_, '_, '_> {
    fn plain(&self, number: u8) -> bool {
        self.sealed.plain(number)
    }
}
