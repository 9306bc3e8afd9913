// A game of a formula: its table, and the calls on table and pool.
#![tactic(auto)]

mod ending;
mod faults;
mod moves;
mod opening;
mod refusals;
mod stepping;
mod table;
mod verdict;

pub use ending::{NotItsVerdict, retire};
pub use faults::GameFault;
pub use moves::{MoveFault, next_move};
pub use opening::open;
pub use refusals::StepFault;
pub use stepping::step;
pub use table::Table;
pub use verdict::Verdict;

// What the parts below offer users of a game: its record to be read, and theorems on opened games and on moves.
pub use layout::{Game, Level, words_of_small_games};
pub use plan::{a_move_is_recorded, entries_have_values, plays_are_taken};
