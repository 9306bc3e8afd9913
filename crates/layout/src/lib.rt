// How a game lies in its table and in the caller's pool, and the words that open writes.
// Internal: for the crates above, which know what the functions here require.
#![tactic(auto)]

mod begin;
mod chains;
mod game;
mod laying;
mod levels;
mod signals;
mod sizes;
mod theorems;
mod writing;

pub use game::{BLANK, Game, Level};
pub use laying::lay;
pub use levels::{count_flags, count_variables, is_choice};
pub use signals::{b_signal, count_signals, magnitude, t_signal};
pub use sizes::words_needed;
pub use theorems::words_of_small_games;
pub use writing::write_game;
