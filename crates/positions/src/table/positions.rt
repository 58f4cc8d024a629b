// The position engine: states are sets of atoms, and a step reads their rows.

ghost use Rattle.std.specs.Prelude.{◌-◌, ◌*◌, ◌<◌, ◌≤◌};
ghost use Rattle.models.specs.Tables.{ModelWords, ModelRest};
ghost use Rattle.positions.specs.Walks.{Based};

use super::super::walks::{reading, union_of};
use super::FollowTable;
use bits::contains;
use derivative::BEGINNING;
use engine::{Alphabet, Engine};
use models::Model;

// Where a number's places begin, if it has a record.
pub(crate) fn base_of(models: &[Model], number: u8) -> Option<usize>
    ensures { Based models.now number result }
{
    let place = (number as usize).checked_sub(1)?;
    (place < models.len()).then_some(64 * place)
}

impl<L: Alphabet> Engine for FollowTable<'_, '_, '_, '_, L> {
    type Letter = L;

    ghost language = { λ self. ModelWords L.Alphabet.stands self.tables.nodes.now self.tables.models.now };

    ghost rest = { λ self. ModelRest L.Alphabet.stands self.tables.nodes.now self.tables.models.now };

    fn open(&self, number: u8) -> Option<u64> {
        let base = base_of(self.tables.models, number)?;
        (self.rows[base] != 0).then_some(BEGINNING)
    }

    fn step(&self, number: u8, state: u64, letter: L) -> Option<u64> {
        let base = base_of(self.tables.models, number)?;
        let after = union_of(self.rows, base, state);
        let next = reading(self.atoms, base, after, letter);
        (next != 0).then_some(next)
    }

    fn ends(&self, number: u8, state: u64) -> bool {
        let base = base_of(self.tables.models, number);
        base.is_some_and(|base| contains(union_of(self.rows, base, state), 0))
    }
}
