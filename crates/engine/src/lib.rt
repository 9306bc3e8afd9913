// Engines that answer questions of satisfiability over clauses in a pool, all against one meaning.
#![tactic(auto)]

mod admission;
mod asking;
mod counting;
mod question;
mod tally;
mod words;

pub use admission::{MAX_SIGNALS, admit, admit_size, largest_above};
pub use asking::{Engine, answers_agree, says_no};
pub use counting::Counting;
pub use question::{Answer, Question, Refusal};
pub use tally::Tally;
pub use words::{copy_front, signed};
