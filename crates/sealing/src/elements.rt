// Which records stand for elements.

ghost use Rattle.std.specs.Prelude.{◌≡◌, ◌+◌, length};
ghost use Rattle.sealing.specs.Questions.{elements};

use engine::ContentAtom;
use models::{Model, Tables};
use std::ops::Range;

// The most elements that there are.
const MOST_ELEMENTS: usize = 63;

// The records of elements: the first 63, or all where there are fewer.
fn records_of(models: &[Model]) -> &[Model]
    ensures { result.now ≡ elements models.now }
{
    &models[..models.len().min(MOST_ELEMENTS)]
}

// The tables with the records of elements alone.
pub fn elements_of<'n, 'm>(tables: Tables<'n, 'm, ContentAtom>) -> Tables<'n, 'm, ContentAtom>
    ensures nodes { result.nodes.now ≡ tables.entry.nodes.now }
    ensures models { result.models.now ≡ elements tables.entry.models.now }
{
    Tables {
        nodes: tables.nodes,
        models: records_of(tables.models),
    }
}

// The numbers of the elements, from 1 on.
pub fn numbers_of(models: &[Model]) -> Range<u8>
    ensures start { result.start ≡ 1 }
    ensures end { result.end ≡ length (elements models.now) + 1 }
{
    1..records_of(models).len() as u8 + 1
}
