// Whether the language of an expression is all words of text alone.

ghost use Rattle.std.specs.Prelude.{◌≤◌};
ghost use Rattle.engine.specs.Languages.{Decides, Each};
ghost use Rattle.models.specs.Readers.{atoms_of};
ghost use Rattle.sealed.specs.Texts.{AllTexts, TextAfter, TextOnly};
ghost use Rattle.sealing.specs.Forks.{AmbiguousIn};

use bits::{contains, lowest, only, with};
use derivative::known;
use engine::{ContentAtom, Letter};
use models::{Node, readers};

// Whether an atom stands for text alone.
fn is_text(atom: ContentAtom) -> bool
    ensures { Decides result (TextOnly atom) }
{
    matches!(atom, ContentAtom::Text | ContentAtom::All(0))
}

// Whether each atom stands for text alone.
pub fn only_text(nodes: &[Node<ContentAtom>]) -> bool
    ensures { Decides result (Each TextOnly (atoms_of nodes.now)) }
{
    nodes
        .iter()
        .filter_map(|node| node.atom())
        .all(|atom| is_text(atom))
}

// The atom by which text goes on after another one, the beginning being 0, if a word may also end there.
fn text_after(nodes: &[Node<ContentAtom>], last: u8) -> Option<u8>
    requires { last ≤ 63 }
    ensures { TextAfter nodes.now last result }
{
    let state = only(last);
    let derived = known(nodes, state, readers(nodes, Letter::Text))?;
    if !derived.may_end(state) {
        return None;
    }
    lowest(derived.reached(state))
}

// Whether every word of text alone is a word of the expression, which is not ambiguous: then text goes
// on by one atom at a time, until one comes again.
pub fn takes_all_text(nodes: &[Node<ContentAtom>]) -> bool
    ensures { (AmbiguousIn nodes.now → ⊥) → Decides result (AllTexts nodes.now) }
{
    // Kept: the set grows until an atom comes again; no list is gone through.
    let mut seen = 0;
    let mut last = 0;
    while !contains(seen, last) {
        let Some(next) = text_after(nodes, last) else {
            return false;
        };
        seen = with(seen, last);
        last = next;
    }
    true
}
