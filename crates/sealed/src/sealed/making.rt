// Making sealed tables: the promise of their languages.

ghost use Rattle.std.specs.Prelude.{◌≡◌, ℕ, [], MatchResult};
ghost use Rattle.engine.specs.Atoms.{StandsFor};
ghost use Rattle.engine.specs.Languages.{Empty, Same};
ghost use Rattle.models.specs.Tables.{ModelRest, Speaks};
ghost use Rattle.sealed.specs.Checks.{Judged};

use super::super::questions::{Unsealed, check};
use super::Sealed;
use derivative::Derivatives;
use engine::{ContentAtom, Engine};
use models::Tables;

impl<'n, 'm> Sealed<'n, 'm> {
    // Tables without elements, which may always be sealed: no number has a word.
    pub fn empty() -> Sealed<'n, 'm>
        ensures languages { (n : ℕ) → Empty (⟦<Sealed<'n, 'm> as Engine>⟧.language result n) }
        ensures tables { (result.engine.tables.nodes.now ≡ []) × (result.engine.tables.models.now ≡ []) }
    {
        Sealed {
            engine: Derivatives {
                tables: Tables {
                    nodes: &[],
                    models: &[],
                },
            },
        }
    }

    // Takes the tables in place of those that are held, if they may be sealed. The languages are then those
    // of the tables, and a state is the set of the atoms that may have been read last; else all stays as it was.
    pub fn fill(&mut self, tables: Tables<'n, 'm, ContentAtom>) -> Result<(), Unsealed>
        ensures answer { Judged tables.entry.nodes.now tables.entry.models.now result }
        ensures tables { MatchResult result (λ _. (self.new.engine.tables.nodes.now ≡ tables.entry.nodes.now) × (self.new.engine.tables.models.now ≡ tables.entry.models.now)) (λ _. self.new ≡ self.old) }
        ensures languages { MatchResult result (λ _. Speaks StandsFor tables.entry.nodes.now tables.entry.models.now (⟦<Sealed<'n, 'm> as Engine>⟧.language self.new)) (λ _. (n : ℕ) → Same (⟦<Sealed<'n, 'm> as Engine>⟧.language self.new n) (⟦<Sealed<'n, 'm> as Engine>⟧.language self.old n)) }
        ensures states { MatchResult result (λ _. (number state : ℕ) → Same (⟦<Sealed<'n, 'm> as Engine>⟧.rest self.new number state) (ModelRest StandsFor tables.entry.nodes.now tables.entry.models.now number state)) (λ _. (number state : ℕ) → Same (⟦<Sealed<'n, 'm> as Engine>⟧.rest self.new number state) (⟦<Sealed<'n, 'm> as Engine>⟧.rest self.old number state)) }
    {
        check(tables)?;
        *self = Sealed {
            engine: Derivatives { tables },
        };
        Ok(())
    }

    // The tables that are held.
    pub fn tables(&self) -> Tables<'n, 'm, ContentAtom>
        ensures { result ≡ self.now.engine.tables }
    {
        self.engine.tables
    }
}
