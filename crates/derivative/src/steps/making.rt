// Making a derivative engine: the promise of its languages.

ghost use Rattle.engine.specs.Languages.{Same};
ghost use Rattle.models.specs.Tables.{ModelRest, Speaks};
ghost use Rattle.std.specs.Prelude.{ℕ};

use super::Derivatives;
use engine::{Alphabet, Engine};
use models::Tables;

impl<'n, 'm, L: Alphabet> Derivatives<'n, 'm, L> {
    // The engine over a node table and the records of its models. Its languages are those that they code,
    // and a state is the set of the atoms that may have been read last.
    pub fn over(tables: Tables<'n, 'm, L::Atom>) -> Derivatives<'n, 'm, L>
        ensures languages { Speaks L.Alphabet.stands tables.entry.nodes.now tables.entry.models.now (⟦<Derivatives<'n, 'm, L> as Engine>⟧.language result) }
        ensures states { (number state : ℕ) → Same (⟦<Derivatives<'n, 'm, L> as Engine>⟧.rest result number state) (ModelRest L.Alphabet.stands tables.entry.nodes.now tables.entry.models.now number state) }
    {
        Derivatives { tables }
    }
}
