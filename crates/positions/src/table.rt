// The follow table, held for reading, and the engine that reads it.

mod columned;
mod filling;
mod positions;
mod refusal;

ghost use Rattle.std.specs.Prelude.{ℕ, ◌-◌, ◌*◌, ◌<◌, ◌≤◌, length};
ghost use Rattle.positions.specs.Following.{Blank, Followed, Placed, Spare};

pub use columned::{BlankColumnTable, ColumnTable, ContentTable, FormTable};
use engine::Alphabet;
pub use filling::{BlankTable, TooFewPlaces};
use models::{Node, Tables};

// The follow sets and the atoms of every number with a model, 64 places to a number.
// Kept: rows and atoms are lent apart, in fixed memory; a step walks the rows alone first.
#[derive(Drop)]
pub struct FollowTable<'n, 'm, 'r, 'a, L: Alphabet> {
    tables: Tables<'n, 'm, L::Atom>,
    rows: &'r [u64],
    atoms: &'a [Node<L::Atom>],
    ghost wide: { 64 * length tables.models.now ≤ length rows.now },
    ghost roomy: { 64 * length tables.models.now ≤ length atoms.now },
    ghost followed: { Followed tables.nodes.now tables.models.now rows.now },
    ghost blank: { Blank tables.nodes.now tables.models.now rows.now },
    ghost placed: { Placed tables.nodes.now tables.models.now atoms.now },
    ghost spare: { Spare tables.nodes.now tables.models.now atoms.now },
}
