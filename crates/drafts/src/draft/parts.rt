// The parts of a draft.

ghost use Rattle.std.specs.Prelude.{◌≡◌, [], length};
ghost use Rattle.models.specs.declared.node.Node.TheVariants.{Unused};
ghost use Rattle.drafts.specs.Drafted.{declarations, text_models};
ghost use Rattle.drafts.specs.Layouts.{all_code, runs_from};
ghost use Rattle.drafts.specs.Tables.{entries_of, filled};

use super::Draft;
use engine::ContentAtom;
use models::{Model, Node};
use scan::Entry;

impl<'t, 'n, 'm, 'e> Draft<'t, 'n, 'm, 'e> {
    // The draft of the empty text, which declares nothing.
    pub fn empty() -> Draft<'t, 'n, 'm, 'e>
        ensures { result.text.now ≡ [] }
    {
        Draft {
            text: &[],
            nodes: &[],
            models: &[],
            entries: &[],
            count: 0,
        }
    }

    // The text that was read.
    pub fn text(&self) -> &'t [u8]
        ensures { result.now ≡ self.now.text.now }
    {
        self.text
    }

    // The node table: the nodes of all models of the text, and unused nodes behind them.
    pub fn nodes(&self) -> &'n [Node<ContentAtom>]
        ensures { result.now ≡ filled Unused (length result.now) (all_code (text_models self.now.text.now)) }
    {
        self.nodes
    }

    // Where the nodes of each model stand.
    pub fn models(&self) -> &'m [Model]
        ensures { result.now ≡ runs_from 0 (text_models self.now.text.now) }
    {
        let models = self.models;
        &models[0..self.count]
    }

    // Where each declaration and its name stand.
    pub fn entries(&self) -> &'e [Entry]
        ensures { result.now ≡ entries_of self.now.text.now (declarations self.now.text.now) }
    {
        let entries = self.entries;
        &entries[0..self.count]
    }
}
