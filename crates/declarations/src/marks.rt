// The marks behind names and groups.

ghost use Rattle.std.specs.Prelude.{◌≡◌, ℕ, List, length, drop, Some};
ghost use Rattle.declarations.specs.Inner.{PartIs, ExpressionAt, mark_at};
ghost use Rattle.declarations.specs.Models.{names_in, numbered};
ghost use Rattle.declarations.specs.Readers.{with_mark};
ghost use Rattle.declarations.specs.Writers.{ModelWriter as OfModel};
ghost use Rattle.models.specs.Expressions.{Exp};
ghost use Rattle.scan.specs.Names.{Name};

use super::model::ModelWriter;
use models::Node;
use scan::peek;
use writing::Mark;

// The mark at the place, if one is there.
fn mark_at(text: &[u8], at: usize) -> Option<Mark>
    ensures { result ≡ mark_at (drop at text.now) }
{
    match peek(text, at)? {
        b'?' => Some(Mark::Perhaps),
        b'*' => Some(Mark::AnyNumber),
        b'+' => Some(Mark::AtLeastOne),
        _ => None,
    }
}

// The place behind the mark that stands at the place, if one is there.
pub fn marked(text: &[u8], at: usize, model: &mut ModelWriter<'_>) -> usize
    ensures same_table { model.new.nodes.ghost_name ≡ model.old.nodes.ghost_name }
    ensures read { (names : List Name) (start : ℕ) (e : Exp Name) (rest : List ℕ) (before : OfModel) → PartIs text.now names start (numbered names e) (names_in e) rest before at model.old → ExpressionAt text.now names start (with_mark e rest) before (Some result) model.new }
{
    let Some(mark) = mark_at(text, at) else {
        return at;
    };
    model.put(Node::from(mark));
    at + 1
}
