// What more than one program says of a text: the formula that it is, or why it is none.
#![tactic(auto)]

mod listing;
mod refused;

pub use listing::Listing;
pub use refused::Refused;
