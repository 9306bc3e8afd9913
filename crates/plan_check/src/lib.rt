// Check: whether the chains and entries of a game prove that a side has won, asked of any engine that is large enough.
// Nothing is believed but what lies in the table and the pool.
#![tactic(auto)]

mod chains;
mod checking;
mod entries;
mod faults;
mod learned;
mod levels;
mod openings;
mod sets;
mod start;
mod unsatisfiable;

pub use checking::check;
pub use faults::CheckFault;
