// The calls that a list may have, and what comes of each.
use engine::{Answer, Refusal};
use formula::Side;
use game::{GameFault, MoveFault, StepFault};
use plan_check::CheckFault;

#[derive(Clone, Copy)]
pub enum Action<'a> {
    // a game of the formula that the text reads as, under this number
    Open(&'a [u8], u16),
    Step,
    // the winner's move at a level, after the play of the levels before
    Move(usize, &'a [i32]),
    Check(Side),
    Retire,
    // a question about the table's pool: signals, words in use, head of the chain, room for the answer, assumptions
    Ask(usize, usize, usize, usize, &'a [i32]),
}

// A call names its table by the place in the list of tables.
#[derive(Clone, Copy)]
pub struct Call<'a> {
    pub table: usize,
    pub action: Action<'a>,
}

#[derive(Drop)]
pub enum Outcome {
    // there is no such table
    NoTable,
    // a move or a retire, and the table has no verdict to show or to hand in
    NoVerdict,
    Opened(Result<(), GameFault>),
    // the side that has won, if the step gave the verdict
    Stepped(Result<Option<Side>, StepFault>),
    // how many values the move has, which lie at the front of the words
    Moved(Result<Option<usize>, MoveFault>, Vec<i32>),
    Checked(Result<bool, CheckFault>),
    // whether the verdict was taken: there is one refusal only, and the verdict stays at the seat then
    Retired(bool),
    Answered(Result<Answer, Refusal>, Vec<i32>),
}
