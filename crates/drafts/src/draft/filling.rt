// Reading a text into a draft.

ghost use Rattle.std.specs.Prelude.{◌≡◌, [], length, MatchResult};
ghost use Rattle.declarations.specs.Theorems.{GrammarIsRead};
ghost use Rattle.drafts.specs.Reading.{AllZero, Tells, room_of};
ghost use Rattle.drafts.specs.Questions.{judge};

use super::super::reading::read_into;
use super::super::refusal::Refusal;
use super::Draft;
use engine::ContentAtom;
use models::{Model, Node};
use scan::Entry;
use std::mem::replace;

// The lent tables that a text is to be read into.
#[derive(Drop)]
pub struct BlankTables<'n, 'm, 'e> {
    pub nodes: &'n mut [Node<ContentAtom>],
    pub models: &'m mut [Model],
    pub entries: &'e mut [Entry],
}

impl<'t, 'n, 'm, 'e> Draft<'t, 'n, 'm, 'e> {
    // Reads a text in place of what is held: the draft is then that of the text, and the lent tables pass over to it.
    // Where a question gets a no, the tables are left zero and the draft stays as it was.
    pub fn read(
        &mut self,
        text: &'t [u8],
        blank: &mut BlankTables<'n, 'm, 'e>,
    ) -> Result<(), Refusal>
        ensures answer { Tells (judge (room_of blank.old.nodes.now blank.old.models.now blank.old.entries.now) text.now) result }
        ensures made { MatchResult result (λ _. (self.new.text.now ≡ text.now) × (length self.new.nodes.now ≡ length blank.old.nodes.now) × (length self.new.models.now ≡ length blank.old.models.now) × (length self.new.entries.now ≡ length blank.old.entries.now)) (λ _. self.new ≡ self.old) }
        ensures left { MatchResult result (λ _. (blank.new.nodes.now ≡ []) × (blank.new.models.now ≡ []) × (blank.new.entries.now ≡ [])) (λ _. AllZero blank.new.nodes.now blank.new.models.now blank.new.entries.now) }
        ensures law { GrammarIsRead }
    {
        let nodes = replace(&mut blank.nodes, &mut []);
        let models = replace(&mut blank.models, &mut []);
        let entries = replace(&mut blank.entries, &mut []);
        match read_into(text, nodes, models, entries) {
            Ok(count) => {
                *self = Draft {
                    text,
                    nodes: &*nodes,
                    models: &*models,
                    entries: &*entries,
                    count,
                };
                Ok(())
            }
            Err(refusal) => {
                blank.nodes = nodes;
                blank.models = models;
                blank.entries = entries;
                Err(refusal)
            }
        }
    }
}
