// Filling a follow table: from the lent places of one that is still to be made, or refused.

ghost use Rattle.std.specs.Prelude.{◌≡◌, ℕ, ◌*◌, ◌/◌, ◌<◌, ◌≤◌, [], length, MatchResult};
ghost use Rattle.models.specs.Tables.{ModelRest, Speaks};
ghost use Rattle.positions.specs.Following.{Atoms, FollowRows, HasRoom, PassedOn, Rows, SamePlaces, Zeroed};
ghost use Rattle.engine.specs.Languages.{Decides, Same};

use super::super::rows::{write_atoms, write_rows};
use super::FollowTable;
use engine::{Alphabet, Engine};
use models::{Node, Tables};
use std::mem::replace;

// The lent places of a follow table that is still to be made.
// Kept: rows and atoms are lent apart, in fixed memory; a step walks the rows alone first.
#[derive(Drop)]
pub struct BlankTable<'r, 'a, L: Alphabet> {
    pub rows: &'r mut [u64],
    pub atoms: &'a mut [Node<L::Atom>],
}

// Why a follow table was not made: it has fewer than 64 places for each element.
#[derive(Clone, Copy, PartialEq, Eq, Debug)]
pub struct TooFewPlaces;

impl<L: Alphabet> BlankTable<'_, '_, L> {
    // Whether there are 64 places for each of so many elements.
    pub(crate) fn has_room(&self, elements: usize) -> bool
        ensures { Decides result (HasRoom elements self.now.rows.now self.now.atoms.now) }
    {
        elements <= self.rows.len() / 64 && elements <= self.atoms.len() / 64
    }

    // Leaves every place zero.
    pub(crate) fn clear(&mut self)
        ensures { Zeroed self.old.rows.now self.old.atoms.now self.new.rows.now self.new.atoms.now }
    {
        self.rows.fill(0);
        self.atoms.fill(Node::Unused);
    }

    // Writes every place.
    fn write(&mut self, tables: Tables<'_, '_, L::Atom>)
        ensures rows { Rows tables.entry.nodes.now tables.entry.models.now self.new.rows.now }
        ensures atoms { Atoms tables.entry.nodes.now tables.entry.models.now self.new.atoms.now }
        ensures room { SamePlaces self.old.rows.now self.old.atoms.now self.new.rows.now self.new.atoms.now }
    {
        write_rows(tables, self.rows);
        write_atoms(tables, self.atoms);
    }
}

impl<'n, 'm, 'r, 'a, L: Alphabet> FollowTable<'n, 'm, 'r, 'a, L> {
    // A table of no models.
    pub fn empty() -> FollowTable<'n, 'm, 'r, 'a, L>
        ensures tables { (result.tables.nodes.now ≡ []) × (result.tables.models.now ≡ []) }
        ensures places { (result.rows.now ≡ []) × (result.atoms.now ≡ []) }
    {
        FollowTable {
            tables: Tables {
                nodes: &[],
                models: &[],
            },
            rows: &[],
            atoms: &[],
        }
    }

    // Makes this the table of the models: the engine of their languages, whose states are the sets of the
    // atoms that may have been read last. The lent places pass over to it. Where they are too few, they are
    // left zero and this table stays as it was.
    pub fn fill(
        &mut self,
        tables: Tables<'n, 'm, L::Atom>,
        blank: &mut BlankTable<'r, 'a, L>,
    ) -> Result<(), TooFewPlaces>
        ensures answer { let room = HasRoom (length tables.entry.models.now) blank.old.rows.now blank.old.atoms.now in MatchResult result (λ _. room) (λ _. room → ⊥) }
        ensures tables { MatchResult result (λ _. (self.new.tables.nodes.now ≡ tables.entry.nodes.now) × (self.new.tables.models.now ≡ tables.entry.models.now)) (λ _. self.new ≡ self.old) }
        ensures made { MatchResult result (λ _. FollowRows L.Alphabet.stands tables.entry.nodes.now tables.entry.models.now self.new.rows.now × Atoms tables.entry.nodes.now tables.entry.models.now self.new.atoms.now) (λ _. Unit {0}) }
        ensures room { MatchResult result (λ _. SamePlaces blank.old.rows.now blank.old.atoms.now self.new.rows.now self.new.atoms.now) (λ _. Unit {0}) }
        ensures left { MatchResult result (λ _. PassedOn blank.new.rows.now blank.new.atoms.now) (λ _. Zeroed blank.old.rows.now blank.old.atoms.now blank.new.rows.now blank.new.atoms.now) }
        ensures languages { MatchResult result (λ _. Speaks L.Alphabet.stands tables.entry.nodes.now tables.entry.models.now (⟦<FollowTable<'n, 'm, 'r, 'a, L> as Engine>⟧.language self.new)) (λ _. Unit {0}) }
        ensures states { MatchResult result (λ _. (number state : ℕ) → Same (⟦<FollowTable<'n, 'm, 'r, 'a, L> as Engine>⟧.rest self.new number state) (ModelRest L.Alphabet.stands tables.entry.nodes.now tables.entry.models.now number state)) (λ _. Unit {0}) }
    {
        if !blank.has_room(tables.models.len()) {
            blank.clear();
            return Err(TooFewPlaces);
        }
        blank.write(tables);
        let rows = replace(&mut blank.rows, &mut []);
        let atoms = replace(&mut blank.atoms, &mut []);
        *self = FollowTable {
            tables,
            rows: &*rows,
            atoms: &*atoms,
        };
        Ok(())
    }
}
