// Reads a formula from a text.
#![tactic(auto)]

mod blocks;
mod bytes;
mod clauses;
mod comments;
mod faults;
mod header;
mod numbers;
mod positions;
mod text;
mod theorems;
mod words;

pub use faults::{Layer, MAX_TEXT, TextFault, WordFault};
pub use positions::{Position, position_of};
pub use text::read;
pub use theorems::{
    a_false_text, a_true_text, long_texts_are_refused, small_numbers, small_texts,
    what_is_read_is_written,
};
pub use words::{Token, Words};
