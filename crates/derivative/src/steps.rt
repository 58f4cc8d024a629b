// The derivative engine, over any node table and its models.

ghost use Rattle.std.specs.Prelude.{ℕ, List, [], ◌∷◌};
ghost use Rattle.engine.specs.Languages.{Answers, Decides, Each, residue};
ghost use Rattle.models.specs.Tables.{ModelWords, ModelRest};

mod making;

use super::derive::known;
use engine::{Alphabet, Engine};
use models::{Tables, readers};

// The state at the beginning: no atom was read yet.
// Kept: a state is a word of 64 bits by the engine interface.
pub const BEGINNING: u64 = 1;

// An engine that reads a node table. Its states are sets of the atoms that may have been read last, 0
// meaning the beginning.
#[derive(Clone, Copy)]
pub struct Derivatives<'n, 'm, L: Alphabet> {
    pub tables: Tables<'n, 'm, L::Atom>,
}

impl<L: Alphabet> Engine for Derivatives<'_, '_, L> {
    type Letter = L;

    ghost language = { λ self. ModelWords L.Alphabet.stands self.tables.nodes.now self.tables.models.now };

    ghost rest = { λ self. ModelRest L.Alphabet.stands self.tables.nodes.now self.tables.models.now };

    fn open(&self, number: u8) -> Option<u64> {
        known(self.tables.nodes_of(number as usize), 0, 0).map(|_| BEGINNING)
    }

    fn step(&self, number: u8, state: u64, letter: L) -> Option<u64> {
        let nodes = self.tables.nodes_of(number as usize);
        let derived = known(nodes, state, readers(nodes, letter))?;
        let next = derived.reached(state);
        (next != 0).then_some(next)
    }

    fn ends(&self, number: u8, state: u64) -> bool {
        known(self.tables.nodes_of(number as usize), state, 0).is_some_and(
            |derived| derived.may_end(state),
        )
    }
}
