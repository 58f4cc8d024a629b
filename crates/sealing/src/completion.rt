// The elements that have a valid tree, values left aside: the least set that is closed under "the model
// has a word of text and elements of the set", grown from nothing.

ghost use Rattle.std.specs.Prelude.{ℕ, ◌≤◌, length};
ghost use Rattle.bits.specs.Sets.{has};
ghost use Rattle.engine.specs.Languages.{Decides};
ghost use Rattle.sealing.specs.Completion.{Completes, Lacking, completion};
ghost use Rattle.sealing.specs.Questions.{HasTree};

use bits::{contains, with};
use engine::ContentAtom;
use models::{Algebra, Tables, fold};

// The algebra of one question: has the expression a word of text and elements of the set?
#[derive(Clone, Copy)]
pub struct Completion {
    set: u64,
}

impl Algebra<ContentAtom> for Completion {
    type Value = bool;

    ghost operations = { λ self. completion self.set };

    fn empty_word(&self) -> bool {
        true
    }

    fn single(&self, _number: u8, atom: ContentAtom) -> bool {
        match atom {
            ContentAtom::Text => true,
            ContentAtom::Element(child) => contains(self.set, child),
            ContentAtom::All(_) => true,
        }
    }

    fn both(&self, left: bool, right: bool) -> bool {
        left && right
    }

    fn either(&self, left: bool, right: bool) -> bool {
        left || right
    }

    fn any(&self, _inside: bool) -> bool {
        true
    }

    fn some(&self, inside: bool) -> bool {
        inside
    }

    fn maybe(&self, _inside: bool) -> bool {
        true
    }
}

// Whether the number's model has a word of text and elements of the set.
fn completes(tables: Tables<'_, '_, ContentAtom>, number: u8, set: u64) -> bool
    ensures { Decides result (Completes tables.entry.nodes.now tables.entry.models.now set number) }
{
    let nodes = tables.nodes_of(number as usize);
    let mut work = [false; 64];
    fold(&Completion { set }, nodes, &mut work).unwrap_or(false)
}

// A number that the set still lacks, or none.
fn lacking(tables: Tables<'_, '_, ContentAtom>, set: u64) -> Option<u8>
    ensures { Lacking tables.entry.nodes.now tables.entry.models.now set result }
{
    (1..64).find(|number| !contains(set, *number) && completes(tables, *number, set))
}

// The elements that have a valid tree, values left aside.
pub fn completed(tables: Tables<'_, '_, ContentAtom>) -> u64
    requires { length tables.models.now ≤ 63 }
    ensures { (n : ℕ) → Decides (has result n) (HasTree tables.entry.nodes.now tables.entry.models.now n) }
{
    // Kept: the set grows until nothing is lacking; no list is gone through.
    let mut set = 0;
    while let Some(number) = lacking(tables, set) {
        set = with(set, number);
    }
    set
}
