// What is sent to a sheet and what it answers, apart from the sheet: events and calls, refusals by their
// numbers, and the answers of a recorded history.

#![tactic(auto)]

mod answer;
mod call;

pub use answer::{Answer, Granted, Refusal};
pub use call::{Call, Event};
