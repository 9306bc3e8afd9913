// What a search over clauses is made of: values of some of the signals, what a record comes to under them,
// following records with one open number, and finding out what a clash rests on.
// Internal: its functions ask of their callers what the branching engine knows.
#![tactic(auto)]

mod conflict;
mod status;
mod units;

pub use conflict::{explain, mark_signals};
pub use status::{Status, place_of, value_of, weigh};
pub use units::{assign, propagate};
