// What an engine is asked, and what it says.
ghost use Rattle.std.specs.Prelude.{◌≡◌};
ghost use Rattle.engine.specs.Asking.{number_of};

use std::error::Error;
use std::fmt;

// Whether the chain at `head` and the assumptions can be true together, over the signals 1 to `signals`.
#[derive(Clone, Copy)]
pub struct Question<'a> {
    pub signals: usize,
    pub pool: &'a [i32],
    pub used: usize,
    pub head: usize,
    pub assumptions: &'a [i32],
}

// `No` has the number of assumptions that clash with the chain. No Option: the answers have names of their own.
#[derive(Clone, Copy)]
pub enum Answer {
    Yes,
    No(usize),
}

// Why a question is not answered.
#[derive(Clone, Copy, PartialEq, Eq, Debug)]
pub enum Refusal {
    TooManySignals,
    ShortSlice,
    UnsoundQuestion,
}

impl Refusal {
    // The number that callers know the refusal by.
    pub fn number(self) -> u8
        ensures { result ≡ number_of self }
    {
        match self {
            Refusal::TooManySignals => 34,
            Refusal::ShortSlice => 12,
            Refusal::UnsoundQuestion => 18,
        }
    }
}

// What is wrong, in a few words.
impl fmt::Display for Refusal {
    fn fmt<W: fmt::Write>(&self, f: &mut fmt::Formatter<W>) -> fmt::Result {
        f.write_str(match self {
            Refusal::TooManySignals => "more signals than this engine takes",
            Refusal::ShortSlice => "too little room for an answer",
            Refusal::UnsoundQuestion => { "a number that names no signal, or too many assumptions" }
        })
    }
}

impl Error for Refusal {}
