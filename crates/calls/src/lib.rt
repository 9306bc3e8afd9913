// Lists of calls over any number of games, and the law of all such lists.
#![tactic(auto)]

mod acts;
mod call;
mod running;
mod seat;
mod theorems;
mod words;

pub use call::{Action, Call, Outcome};
pub use running::{perform, run};
pub use seat::Seat;
pub use theorems::law_of_all_runs;
