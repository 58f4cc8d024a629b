// Making an indexed engine: the promise of its languages.

ghost use Rattle.std.specs.Prelude.{◌≡◌, ℕ, [], length, replicate, MatchResult};
ghost use Rattle.engine.specs.Atoms.{StandsFor};
ghost use Rattle.engine.specs.Languages.{Empty, Same};
ghost use Rattle.models.specs.Tables.{ModelRest};
ghost use Rattle.positions.specs.Columns.{HasAllRoom, SortedTable, letter_bucket};
ghost use Rattle.positions.specs.Following.{PassedOn, SamePlaces, Zeroed};

use super::Indexed;
use engine::{Engine, Letter};
use positions::{BlankColumnTable, ContentTable, TooFewPlaces};
use sealed::Sealed;

impl<'n, 'm, 'r, 'a, 'c> Indexed<'n, 'm, 'r, 'a, 'c> {
    // The engine of tables without elements: no number has a word.
    pub fn empty() -> Indexed<'n, 'm, 'r, 'a, 'c>
        ensures { (n : ℕ) → Empty (⟦<Indexed<'n, 'm, 'r, 'a, 'c> as Engine>⟧.language result n) }
    {
        let sealed = Sealed::empty();
        let table = ContentTable::empty();
        Indexed { sealed, table }
    }

    // Makes this the engine of the sealed tables, with a follow table and its columns in the lent places,
    // which pass over to it. The languages are those of the sealed tables, and a state is the set of the
    // atoms that may have been read last. Where the places are too few, they are left zero and this engine
    // stays as it was.
    pub fn fill(
        &mut self,
        sealed: &Sealed<'n, 'm>,
        blank: &mut BlankColumnTable<'r, 'a, 'c, Letter>,
    ) -> Result<(), TooFewPlaces>
        ensures answer { let room = HasAllRoom (length sealed.now.engine.tables.models.now) blank.old.table.rows.now blank.old.table.atoms.now blank.old.columns.now in MatchResult result (λ _. room) (λ _. room → ⊥) }
        ensures tables { MatchResult result (λ _. self.new.sealed ≡ sealed.now) (λ _. self.new ≡ self.old) }
        ensures made { MatchResult result (λ _. SortedTable StandsFor letter_bucket sealed.now.engine.tables.nodes.now sealed.now.engine.tables.models.now self.new.table.table.rows.now self.new.table.table.atoms.now self.new.table.columns.now) (λ _. Unit {0}) }
        ensures room { MatchResult result (λ _. SamePlaces blank.old.table.rows.now blank.old.table.atoms.now self.new.table.table.rows.now self.new.table.table.atoms.now × (length self.new.table.columns.now ≡ length blank.old.columns.now)) (λ _. Unit {0}) }
        ensures left { MatchResult result (λ _. PassedOn blank.new.table.rows.now blank.new.table.atoms.now × (blank.new.columns.now ≡ [])) (λ _. Zeroed blank.old.table.rows.now blank.old.table.atoms.now blank.new.table.rows.now blank.new.table.atoms.now × (blank.new.columns.now ≡ replicate (length blank.old.columns.now) 0)) }
        ensures languages { MatchResult result (λ _. (number : ℕ) → Same (⟦<Indexed<'n, 'm, 'r, 'a, 'c> as Engine>⟧.language self.new number) (⟦<Sealed<'n, 'm> as Engine>⟧.language sealed.now number)) (λ _. Unit {0}) }
        ensures states { MatchResult result (λ _. (number state : ℕ) → Same (⟦<Indexed<'n, 'm, 'r, 'a, 'c> as Engine>⟧.rest self.new number state) (ModelRest StandsFor sealed.now.engine.tables.nodes.now sealed.now.engine.tables.models.now number state)) (λ _. Unit {0}) }
    {
        let mut table = ContentTable::empty();
        table.fill(sealed.tables(), blank)?;
        *self = Indexed {
            sealed: *sealed,
            table,
        };
        Ok(())
    }
}
