// Quantified Boolean formulas as games of two sides: what they mean, in specs/; the formula in fixed arrays, here.
#![tactic(auto)]

mod draft;
mod faults;
mod formula;
mod limits;
mod parts;
mod side;
mod theorems;

pub use draft::Draft;
pub use faults::{BindFault, ClauseFault, LevelFault, LiteralFault};
pub use formula::Formula;
pub use limits::{MAX_CLAUSES, MAX_LEVELS, MAX_LITERALS, MAX_VARIABLES};
pub use parts::Parts;
pub use side::Side;
pub use theorems::{
    formulas_are_proper, truth_is_a_winning_plan, truths_of_small_formulas, winners_of_small_plays,
};
