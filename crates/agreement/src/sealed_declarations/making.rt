// Sealing a draft.

ghost use Rattle.std.specs.Prelude.{◌≡◌, [], MatchResult, OnOk};
ghost use Rattle.agreement.specs.Sealing.{SealAnswer, SpeaksText};

use super::super::places::refuse;
use super::SealedDeclarations;
use drafts::{Draft, Refusal};
use engine::Engine;
use models::Tables;
use sealed::Sealed;

impl<'t, 'n, 'm, 'e> SealedDeclarations<'t, 'n, 'm, 'e> {
    // The empty text, sealed: nothing is declared.
    pub fn empty() -> SealedDeclarations<'t, 'n, 'm, 'e>
        ensures { result.text.now ≡ [] }
    {
        SealedDeclarations {
            text: &[],
            entries: &[],
            tables: Sealed::empty(),
        }
    }

    // Seals a draft in place of what is held: its text and tables pass over, and it is left empty. Where a question
    // gets a no, both stay as they were.
    pub fn seal(&mut self, draft: &mut Draft<'t, 'n, 'm, 'e>) -> Result<(), Refusal>
        ensures answer { SealAnswer draft.old.text.now result }
        ensures made { MatchResult result (λ _. (self.new.text.now ≡ draft.old.text.now) × (draft.new.text.now ≡ [])) (λ _. (self.new ≡ self.old) × (draft.new ≡ draft.old)) }
        ensures languages { OnOk result (SpeaksText draft.old.text.now (⟦<Sealed<'n, 'm> as Engine>⟧.language self.new.tables)) }
    {
        let mut tables = Sealed::empty();
        let entries = draft.entries();
        let drafted = Tables {
            nodes: draft.nodes(),
            models: draft.models(),
        };
        tables.fill(drafted).map_err(|why| refuse(entries, why))?;
        *self = SealedDeclarations {
            text: draft.text(),
            entries,
            tables,
        };
        *draft = Draft::empty();
        Ok(())
    }
}
