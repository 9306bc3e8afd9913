// Whether a pool can be read as the game that a table speaks of.
// Internal: for the crates above, which know what the functions here require.
#![tactic(auto)]

mod entries;
mod soundness;

pub use soundness::{chain, is_at, is_sound};
