// Writing the models of declarations into the tables.

ghost use Rattle.drafts.specs.Writes.{WritesModels};

use declarations::{declaration_at, write_model};
use engine::ContentAtom;
use models::{Model, Node};
use scan::{Entry, put};

// Writes the nodes of every model, one after the other, and where each model's nodes stand.
pub fn write_models(
    text: &[u8],
    entries: &[Entry],
    nodes: &mut [Node<ContentAtom>],
    models: &mut [Model],
)
    ensures { WritesModels text.now entries.now nodes.old nodes.new models.old models.new }
{
    let mut used: usize = 0;
    // Kept: after a zip of iter_mut() no proof knows what the places hold.
    for (index, entry) in entries.iter().enumerate() {
        let Some(told) = declaration_at(text, entry.place, entries) else {
            return;
        };
        write_model(text, entry.place, entries, nodes, used);
        let end = used.saturating_add(told.nodes);
        put(models, index, Model { start: used, end });
        used = end;
    }
}
