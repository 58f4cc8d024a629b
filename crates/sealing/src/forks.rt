// Whether an expression is ambiguous: whether two of its atoms may read one letter after the same atom.

ghost use Rattle.std.specs.Prelude.{◌≡◌, ℕ, ◌≤◌};
ghost use Rattle.engine.specs.Atoms.{content_sample};
ghost use Rattle.engine.specs.Languages.{Decides};
ghost use Rattle.sealing.specs.Forks.{AmbiguousIn, ForksBy, ForksIn, Several};

use bits::{Members, only};
use derivative::known;
use engine::{ContentAtom, Letter};
use models::{Node, readers};

// Whether a set has two members.
fn several(set: u64) -> bool
    ensures { Decides result (Several set) }
{
    Members::of(set).nth(1).is_some()
}

// Whether after an atom, or at the beginning where it is 0, two atoms may read the letter.
fn forks(nodes: &[Node<ContentAtom>], letter: Letter, after: u8) -> bool
    requires { after ≤ 63 }
    ensures { Decides result (ForksIn nodes.now letter after) }
{
    let state = only(after);
    known(nodes, state, readers(nodes, letter)).is_some_and(|derived| several(derived.reached(
        state,
    )))
}

// Whether two atoms may read the letter after some atom or at the beginning.
fn forks_somewhere(nodes: &[Node<ContentAtom>], letter: Letter) -> bool
    ensures { Decides result ((p : ℕ) × (p ≤ 63) × ForksIn nodes.now letter p) }
{
    (0..64).any(|after| forks(nodes, letter, after))
}

// A letter that the atom stands for. Where two atoms have a letter in common, they have the sample of
// one of them in common, so that only samples need to be tried.
// Kept: a sample is one of many letters that the atom stands for, so no From.
fn sample(atom: ContentAtom) -> Letter
    ensures { result ≡ content_sample atom }
{
    match atom {
        ContentAtom::Text => Letter::Text,
        ContentAtom::Element(number) => Letter::Element(number),
        ContentAtom::All(_) => Letter::Text,
    }
}

// Whether two atoms may read the atom's sample.
fn forks_by(nodes: &[Node<ContentAtom>], atom: ContentAtom) -> bool
    ensures { Decides result (ForksBy nodes.now atom) }
{
    forks_somewhere(nodes, sample(atom))
}

// Whether the nodes code an ambiguous expression.
pub fn ambiguous(nodes: &[Node<ContentAtom>]) -> bool
    ensures { Decides result (AmbiguousIn nodes.now) }
{
    nodes
        .iter()
        .filter_map(|node| node.atom())
        .any(|atom| forks_by(nodes, atom))
}
