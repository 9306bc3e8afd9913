// Chains of records in a pool of signed words. This crate alone knows how the words of a record lie.
#![tactic(auto)]

mod chain;
mod extend;
mod records;
mod size;
mod soundness;

pub use chain::Chain;
pub use extend::{Place, append};
pub use size::head_words;
pub use soundness::are_literals;
