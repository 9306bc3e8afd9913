// Why check is refused, in the order in which it is looked at.
ghost use Rattle.std.specs.Prelude.{◌≡◌};
ghost use Rattle.plan_check.specs.Checked.{check_number};

use std::error::Error;
use std::fmt;

#[derive(Clone, Copy, PartialEq, Eq, Debug)]
pub enum CheckFault {
    // 31: the table holds no game
    EmptyTable,
    // 35: the pool is not sound for the game
    UnsoundPool,
    // 34: the game has more signals than the engine takes
    TooManySignals,
}

impl CheckFault {
    pub fn number(self) -> u8
        ensures { result ≡ check_number self }
    {
        match self {
            CheckFault::EmptyTable => 31,
            CheckFault::UnsoundPool => 35,
            CheckFault::TooManySignals => 34,
        }
    }
}

// What is wrong, in a few words.
impl fmt::Display for CheckFault {
    fn fmt<W: fmt::Write>(&self, f: &mut fmt::Formatter<W>) -> fmt::Result {
        f.write_str(match self {
            CheckFault::EmptyTable => "no game was opened",
            CheckFault::UnsoundPool => "the pool was changed after the last step",
            CheckFault::TooManySignals => "the formula has more signals than the engine takes",
        })
    }
}

impl Error for CheckFault {}
