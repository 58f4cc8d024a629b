// Whether tables may be sealed, question by question.

ghost use Rattle.std.specs.Prelude.{◌≤◌, length};
ghost use Rattle.engine.specs.Languages.{Decides, Each};
ghost use Rattle.models.specs.Readers.{atoms_of};
ghost use Rattle.sealed.specs.Checks.{HasModel, HasNoModel, Judged, Names};
ghost use Rattle.sealing.specs.Questions.{FirstNo};

use derivative::known;
use engine::ContentAtom;
use models::{Node, Tables};
use sealing::{first_ambiguous, first_without_tree, numbers_of};

// Why tables may not be sealed: there are more than 63 records, or the first element that has no model of
// declared names, has an ambiguous one, or has no valid tree.
#[derive(Clone, Copy, PartialEq, Eq, Debug)]
pub enum Unsealed {
    TooMany,
    NoModel(u8),
    Ambiguous(u8),
    NoTree(u8),
}

// Whether an atom names elements up to the last one.
fn names_declared(atom: ContentAtom, last: usize) -> bool
    ensures { Decides result (Names last atom) }
{
    match atom {
        ContentAtom::Text => true,
        ContentAtom::Element(number) => number >= 1 && number as usize <= last,
        ContentAtom::All(number) => number as usize <= last,
    }
}

// Whether each atom names elements up to the last one.
fn all_declared(nodes: &[Node<ContentAtom>], last: usize) -> bool
    ensures { Decides result (Each (Names last) (atoms_of nodes.now)) }
{
    nodes
        .iter()
        .filter_map(|node| node.atom())
        .all(|atom| names_declared(atom, last))
}

// Whether the number has a model, and its atoms name declared elements.
fn has_model(tables: Tables<'_, '_, ContentAtom>, number: u8) -> bool
    ensures { Decides result (HasModel tables.entry.nodes.now tables.entry.models.now number) }
{
    let nodes = tables.nodes_of(number as usize);
    known(nodes, 0, 0).is_some() && all_declared(nodes, tables.models.len())
}

// The first element that has no model, or one that names an element which is not declared.
fn first_without_model(tables: Tables<'_, '_, ContentAtom>) -> Option<u8>
    requires { length tables.models.now ≤ 63 }
    ensures { FirstNo (HasModel tables.entry.nodes.now tables.entry.models.now) (HasNoModel tables.entry.nodes.now tables.entry.models.now) (length tables.entry.models.now) result }
{
    numbers_of(tables.models).find(|number| !has_model(tables, *number))
}

// Whether the tables may be sealed, and if not, the first reason.
pub fn check(tables: Tables<'_, '_, ContentAtom>) -> Result<(), Unsealed>
    ensures { Judged tables.entry.nodes.now tables.entry.models.now result }
{
    if tables.models.len() > 63 {
        return Err(Unsealed::TooMany);
    }
    if let Some(number) = first_without_model(tables) {
        return Err(Unsealed::NoModel(number));
    }
    if let Some(number) = first_ambiguous(tables) {
        return Err(Unsealed::Ambiguous(number));
    }
    if let Some(number) = first_without_tree(tables) {
        return Err(Unsealed::NoTree(number));
    }
    Ok(())
}
