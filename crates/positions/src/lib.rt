// The position engine: it reads a table of follow sets, made once from the node table. `FollowTable` is the
// table without columns; `ColumnTable` has columns too, by which a step finds the atoms that read a letter.

#![tactic(auto)]

mod buckets;
mod columns;
mod rows;
mod table;
mod walks;

pub use buckets::Bucketed;
pub use rows::atom_of;
pub use table::{
    BlankColumnTable, BlankTable, ColumnTable, ContentTable, FollowTable, FormTable, TooFewPlaces,
};
