// The recorded plan of a side, read off a sound pool: plays, and the newest entry that fits one.
// Internal: for the crates above, which know what the functions here require.
#![tactic(auto)]

mod fitting;
mod move_laws;
mod parts;
mod plays;

pub use fitting::{fits, newest_fitting, place};
pub use move_laws::{a_move_is_recorded, entries_have_values, plays_are_taken};
pub use parts::{Parts, split_entry};
pub use plays::{is_play, satisfied};
