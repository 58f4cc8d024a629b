// The sheet: judges a document event by event over any content engine and any value engine.

#![tactic(auto)]

mod expected;
mod pass;
mod runs;
mod sheet;
mod state;

pub use calls::{Answer, Call, Event, Granted, Refusal};
pub use expected::Expected;
pub use frames::Engines;
pub use pass::Pass;
pub use runs::{play, replay};
pub use sheet::Sheet;
