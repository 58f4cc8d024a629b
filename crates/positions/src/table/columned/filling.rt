// Filling a follow table with columns: from the lent places of one that is still to be made, or refused.

ghost use Rattle.std.specs.Prelude.{◌≡◌, ℕ, ◌*◌, ◌/◌, ◌≤◌, [], length, replicate, MatchResult};
ghost use Rattle.engine.specs.Languages.{Decides, Same};
ghost use Rattle.models.specs.Tables.{ModelRest, Speaks};
ghost use Rattle.positions.specs.Columns.{HasAllRoom, SortedTable};
ghost use Rattle.positions.specs.Following.{PassedOn, SamePlaces, Zeroed};

use super::super::super::buckets::Bucketed;
use super::super::super::columns::write_columns;
use super::super::FollowTable;
use super::super::filling::{BlankTable, TooFewPlaces};
use super::ColumnTable;
use engine::{Alphabet, Engine};
use models::Tables;
use std::mem::replace;

// The lent places of a follow table with columns that is still to be made.
#[derive(Drop)]
pub struct BlankColumnTable<'r, 'a, 'c, L: Alphabet> {
    pub table: BlankTable<'r, 'a, L>,
    pub columns: &'c mut [u64],
}

impl<L: Alphabet> BlankColumnTable<'_, '_, '_, L> {
    // Whether there are 64 places of each kind for each of so many elements.
    fn has_room(&self, elements: usize) -> bool
        ensures { Decides result (HasAllRoom elements self.now.table.rows.now self.now.table.atoms.now self.now.columns.now) }
    {
        self.table.has_room(elements) && elements <= self.columns.len() / 64
    }

    // Leaves every place zero.
    fn clear(&mut self)
        ensures table { Zeroed self.old.table.rows.now self.old.table.atoms.now self.new.table.rows.now self.new.table.atoms.now }
        ensures columns { self.new.columns.now ≡ replicate (length self.old.columns.now) 0 }
    {
        self.table.clear();
        self.columns.fill(0);
    }
}

impl<'n, 'm, 'r, 'a, 'c, L: Bucketed> ColumnTable<'n, 'm, 'r, 'a, 'c, L> {
    // A table of no models.
    pub fn empty() -> ColumnTable<'n, 'm, 'r, 'a, 'c, L>
        ensures tables { (result.table.tables.nodes.now ≡ []) × (result.table.tables.models.now ≡ []) }
        ensures places { (result.table.rows.now ≡ []) × ((result.table.atoms.now ≡ []) × (result.columns.now ≡ [])) }
    {
        ColumnTable {
            table: FollowTable::empty(),
            columns: &[],
        }
    }

    // Makes this the table of the models: the engine of their languages, whose states are the sets of the
    // atoms that may have been read last. The lent places pass over to it. Where they are too few, they are
    // left zero and this table stays as it was.
    pub fn fill(
        &mut self,
        tables: Tables<'n, 'm, L::Atom>,
        blank: &mut BlankColumnTable<'r, 'a, 'c, L>,
    ) -> Result<(), TooFewPlaces>
        ensures answer { let room = HasAllRoom (length tables.entry.models.now) blank.old.table.rows.now blank.old.table.atoms.now blank.old.columns.now in MatchResult result (λ _. room) (λ _. room → ⊥) }
        ensures tables { MatchResult result (λ _. (self.new.table.tables.nodes.now ≡ tables.entry.nodes.now) × (self.new.table.tables.models.now ≡ tables.entry.models.now)) (λ _. self.new ≡ self.old) }
        ensures made { MatchResult result (λ _. SortedTable L.Alphabet.stands L.Bucketed.falls tables.entry.nodes.now tables.entry.models.now self.new.table.rows.now self.new.table.atoms.now self.new.columns.now) (λ _. Unit {0}) }
        ensures room { MatchResult result (λ _. SamePlaces blank.old.table.rows.now blank.old.table.atoms.now self.new.table.rows.now self.new.table.atoms.now × (length self.new.columns.now ≡ length blank.old.columns.now)) (λ _. Unit {0}) }
        ensures left { MatchResult result (λ _. PassedOn blank.new.table.rows.now blank.new.table.atoms.now × (blank.new.columns.now ≡ [])) (λ _. Zeroed blank.old.table.rows.now blank.old.table.atoms.now blank.new.table.rows.now blank.new.table.atoms.now × (blank.new.columns.now ≡ replicate (length blank.old.columns.now) 0)) }
        ensures languages { MatchResult result (λ _. Speaks L.Alphabet.stands tables.entry.nodes.now tables.entry.models.now (⟦<ColumnTable<'n, 'm, 'r, 'a, 'c, L> as Engine>⟧.language self.new)) (λ _. Unit {0}) }
        ensures states { MatchResult result (λ _. (number state : ℕ) → Same (⟦<ColumnTable<'n, 'm, 'r, 'a, 'c, L> as Engine>⟧.rest self.new number state) (ModelRest L.Alphabet.stands tables.entry.nodes.now tables.entry.models.now number state)) (λ _. Unit {0}) }
    {
        if !blank.has_room(tables.models.len()) {
            blank.clear();
            return Err(TooFewPlaces);
        }
        let mut table = FollowTable::empty();
        table.fill(tables, &mut blank.table)?;
        write_columns::<L>(table.atoms, blank.columns);
        let columns = replace(&mut blank.columns, &mut []);
        *self = ColumnTable { table, columns };
        Ok(())
    }
}
