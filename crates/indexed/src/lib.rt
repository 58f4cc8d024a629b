// The content engine over sealed tables and their follow table with columns: it steps by positions, and
// shows the law of contents.

#![tactic(auto)]

mod indexed;

pub use indexed::Indexed;
