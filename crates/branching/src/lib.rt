// An engine for up to 1,280 signals: it follows records with one open number, and then branches.
// A 'no' names only the assumptions that the search used.
#![tactic(auto)]

mod choose;
mod search;
mod solve;

pub use solve::Branching;
