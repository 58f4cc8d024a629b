// Sealed declarations: declarations whose text got a yes to every question, with the content engine of their models.

#![tactic(auto)]

mod places;
mod sealed_declarations;

pub use sealed_declarations::SealedDeclarations;
