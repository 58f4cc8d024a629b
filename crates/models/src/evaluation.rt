// The fold: one loop over the nodes, with its working values in a lent slice.

ghost use Rattle.std.specs.Prelude.{◌≡◌, length, replicate};
ghost use Rattle.models.specs.Folds.{Folded};
ghost use Rattle.models.specs.Turns.{Turns, held, turned};

use super::algebra::Algebra;
use super::node::Node;
use super::stack::Stack;

// The most atoms that an expression may have.
pub const MOST_ATOMS: u8 = 63;

// One turn of the fold: what a node does to the working values, and how many atoms were met then.
fn turn<Atom: Copy, G: Algebra<Atom>>(
    algebra: &G,
    node: Node<Atom>,
    stack: &mut Stack<'_, G::Value>,
    atoms: u8,
) -> Option<u8>
    ensures room { length stack.new.places.now ≡ length stack.old.places.now }
    ensures answer { Turns (turned (G.Algebra.operations algebra.now) (length stack.old.places.now) node (held stack.old.places.now stack.old.height, atoms)) (held stack.new.places.now stack.new.height) result }
{
    let value = match node {
        Node::Unused => return None,
        Node::Empty => algebra.empty_word(),
        Node::Atom(atom) => {
            if atoms >= MOST_ATOMS {
                return None;
            }
            stack.push(algebra.single(atoms + 1, atom))?;
            return Some(atoms + 1);
        }
        Node::Seq => {
            let right = stack.pop()?;
            let left = stack.pop()?;
            algebra.both(left, right)
        }
        Node::Alt => {
            let right = stack.pop()?;
            let left = stack.pop()?;
            algebra.either(left, right)
        }
        Node::Star => algebra.any(stack.pop()?),
        Node::Plus => algebra.some(stack.pop()?),
        Node::Opt => algebra.maybe(stack.pop()?),
    };
    stack.push(value)?;
    Some(atoms)
}

// The value of the expression that the nodes code, or none where they code none.
fn evaluate<Atom: Copy, G: Algebra<Atom>>(
    algebra: &G,
    nodes: &[Node<Atom>],
    work: &mut [G::Value],
) -> Option<G::Value>
    ensures { Folded (G.Algebra.operations algebra.now) (length work.old) nodes.now result }
{
    let mut stack = Stack::on(work);
    let mut atoms = 0;
    for node in nodes {
        atoms = turn(algebra, *node, &mut stack, atoms)?;
    }
    let answer = stack.pop()?;
    stack.pop().is_none().then_some(answer)
}

// The value of the expression that the nodes code, or none where they code none that has at most 63
// atoms and whose working values fit the lent slice. The slice is left at the value of the empty word.
pub fn fold<Atom: Copy, G: Algebra<Atom>>(
    algebra: &G,
    nodes: &[Node<Atom>],
    work: &mut [G::Value],
) -> Option<G::Value>
    ensures answer { Folded (G.Algebra.operations algebra.now) (length work.old) nodes.now result }
    ensures written { work.new ≡ replicate (length work.old) (G.Algebra.operations algebra.now).empty_word }
{
    let answer = evaluate(algebra, nodes, work);
    let empty_word = algebra.empty_word();
    work.fill_with(|| empty_word);
    answer
}
