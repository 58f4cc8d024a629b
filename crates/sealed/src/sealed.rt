// Sealed tables, and the content engine that they are.

ghost use Rattle.engine.specs.Atoms.{StandsFor};
ghost use Rattle.models.specs.Tables.{ModelWords, ModelRest};
ghost use Rattle.sealed.specs.Checks.{Sealable};

mod making;

use super::text::{only_text, takes_all_text};
use derivative::Derivatives;
use engine::{Content, Engine, Letter};

// The derivative engine over tables that may be sealed. They are held for reading only.
#[derive(Clone, Copy)]
pub struct Sealed<'n, 'm> {
    engine: Derivatives<'n, 'm, Letter>,
    ghost checked: { ∥ Sealable engine.tables.nodes.now engine.tables.models.now ∥₁ },
}

impl Engine for Sealed<'_, '_> {
    type Letter = Letter;

    ghost language = { λ self. ModelWords StandsFor self.engine.tables.nodes.now self.engine.tables.models.now };

    ghost rest = { λ self. ModelRest StandsFor self.engine.tables.nodes.now self.engine.tables.models.now };

    fn open(&self, number: u8) -> Option<u64> {
        self.engine.open(number)
    }

    fn step(&self, number: u8, state: u64, letter: Letter) -> Option<u64> {
        self.engine.step(number, state, letter)
    }

    fn ends(&self, number: u8, state: u64) -> bool {
        self.engine.ends(number, state)
    }
}

impl Content for Sealed<'_, '_> {
    fn plain(&self, number: u8) -> bool {
        let nodes = self.engine.tables.nodes_of(number as usize);
        only_text(nodes) && takes_all_text(nodes)
    }
}
