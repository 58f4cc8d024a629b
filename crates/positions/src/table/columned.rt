// The follow table with columns, and the engine that reads it.

mod filling;

ghost use Rattle.std.specs.Prelude.{ℕ, ◌*◌, ◌≤◌, length};
ghost use Rattle.models.specs.Tables.{ModelWords, ModelRest};
ghost use Rattle.positions.specs.Columns.{Complete};

use super::super::buckets::Bucketed;
use super::super::walks::{reading, union_of};
use super::FollowTable;
use super::positions::base_of;
use engine::{Engine, Letter};
pub use filling::BlankColumnTable;

// A follow table, and for each number 64 columns: one for each bucket of letters.
#[derive(Drop)]
pub struct ColumnTable<'n, 'm, 'r, 'a, 'c, L: Bucketed> {
    table: FollowTable<'n, 'm, 'r, 'a, L>,
    columns: &'c [u64],
    ghost wide: { 64 * length table.tables.models.now ≤ length columns.now },
    ghost complete: { Complete L.Alphabet.stands L.Bucketed.falls table.atoms.now columns.now },
}

// The table of content models: it has one bucket for each letter of at most 63 elements.
pub type ContentTable<'n, 'm, 'r, 'a, 'c> = ColumnTable<'n, 'm, 'r, 'a, 'c, Letter>;

// The table of value forms: four bytes share a bucket.
pub type FormTable<'n, 'm, 'r, 'a, 'c> = ColumnTable<'n, 'm, 'r, 'a, 'c, u8>;

// A step looks at one row for each atom of the state and at the atoms that the letter's column shares with
// them: where no expression is ambiguous, at as many atoms as there are letters in the bucket, at most.
impl<L: Bucketed> Engine for ColumnTable<'_, '_, '_, '_, '_, L> {
    type Letter = L;

    ghost language = { λ self. ModelWords L.Alphabet.stands self.table.tables.nodes.now self.table.tables.models.now };

    ghost rest = { λ self. ModelRest L.Alphabet.stands self.table.tables.nodes.now self.table.tables.models.now };

    fn open(&self, number: u8) -> Option<u64> {
        self.table.open(number)
    }

    fn step(&self, number: u8, state: u64, letter: L) -> Option<u64> {
        let base = base_of(self.table.tables.models, number)?;
        let column = self.columns[base + letter.bucket() as usize];
        let after = union_of(self.table.rows, base, state) & column;
        let next = reading(self.table.atoms, base, after, letter);
        (next != 0).then_some(next)
    }

    fn ends(&self, number: u8, state: u64) -> bool {
        self.table.ends(number, state)
    }
}
