// A layer that drops the assumptions which a 'no' can do without.
// It asks the engine below again for each named assumption, with that one left out.
#![tactic(auto)]

mod trim;

pub use trim::Trimmer;
