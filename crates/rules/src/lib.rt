// The rules of a step: its question, and what an answer changes in a game and its pool.
// Internal: for the crates above, which know what the functions here require.
#![tactic(auto)]

mod answers;
mod hits;
mod noting;
mod question;
mod sets;
mod values;

pub use answers::apply;
pub use question::assumptions_of;
