// Writing the model of a declaration.

ghost use Rattle.std.specs.Prelude.{◌≡◌, ℕ, not, ◌&&◌, [], ◌∷◌, ◌==◌};
ghost use Rattle.engine.specs.declared.alphabet.ContentAtom.TheVariants.{Element as OfElement};
ghost use Rattle.models.specs.declared.node.Node.TheVariants.{Atom as OfAtom};
ghost use Rattle.scan.specs.Lists.{NumberIs};
ghost use Rattle.writing.specs.Wrote.{Wrote};

use engine::ContentAtom;
use models::Node;
use writing::Writer;

// A writer of a model's nodes that tells whether each name that was written has a number.
pub type ModelWriter<'n> = Writer<'n, ContentAtom, bool>;

// Writes a name by its number. One without a number stands as element 0, which is none.
// Kept: an atom's element is a byte of the engine interface, in which no element is 0.
pub fn put_name(model: &mut ModelWriter<'_>, number: Option<u8>)
    ensures same_table { model.new.nodes.ghost_name ≡ model.old.nodes.ghost_name }
    ensures wrote { (n : ℕ) → NumberIs n number → Wrote model.old (OfAtom (OfElement n) ∷ []) model.new }
    ensures told { (n : ℕ) → NumberIs n number → model.new.told ≡ (model.old.told && not (n == 0)) }
{
    model.put(Node::Atom(ContentAtom::Element(number.unwrap_or(0))));
    model.told = model.told && number.is_some();
}
