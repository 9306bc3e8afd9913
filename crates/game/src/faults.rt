// Why a game is not opened: the fault of the text inside that of the game. Each has a number, an offset in the text and a layer.
ghost use Rattle.std.specs.Prelude.{◌≡◌};
ghost use Rattle.game.specs.declared.faults.GameFault.TheVariants.{Text};
ghost use Rattle.game.specs.Faults.{game_number, game_offset, game_layer};

use reader::{Layer, TextFault};
use std::error::Error;
use std::fmt;

// The longest pool that a game takes, in words.
pub const MAX_POOL: usize = 1_048_576;

#[derive(Clone, Copy, PartialEq, Eq, Debug)]
pub enum GameFault {
    Text(TextFault),
    // 16: the pool is longer than 1,048,576 words
    PoolTooLong,
    // 17: the pool is shorter than the words that the game begins with
    PoolTooShort,
}

impl From<TextFault> for GameFault {
    ghost from_gives = { λ e r. r ≡ Text e };

    fn from(fault: TextFault) -> GameFault {
        GameFault::Text(fault)
    }
}

impl GameFault {
    pub fn number(self) -> u8
        ensures { result ≡ game_number self }
    {
        match self {
            GameFault::Text(fault) => fault.number(),
            GameFault::PoolTooLong => 16,
            GameFault::PoolTooShort => 17,
        }
    }

    // The place in the text; 0 for a fault of the pool.
    pub fn offset(self) -> usize
        ensures { result ≡ game_offset self }
    {
        match self {
            GameFault::Text(fault) => fault.offset(),
            GameFault::PoolTooLong | GameFault::PoolTooShort => 0,
        }
    }

    pub fn layer(self) -> Layer
        ensures { result ≡ game_layer self }
    {
        match self {
            GameFault::Text(fault) => fault.layer(),
            GameFault::PoolTooLong | GameFault::PoolTooShort => Layer::Game,
        }
    }
}

// What is wrong and what to do about it, in one sentence. A fault of the text reads as that of the text.
impl fmt::Display for GameFault {
    fn fmt<W: fmt::Write>(&self, f: &mut fmt::Formatter<W>) -> fmt::Result {
        f.write_str(match self {
            GameFault::Text(fault) => return fault.fmt(f),
            GameFault::PoolTooLong => {
                "the pool is longer than 1,048,576 words: lend a part of it"
            }
            GameFault::PoolTooShort => {
                "the formula's records need more words than the pool has: drop clauses, or shorten them"
            }
        })
    }
}

impl Error for GameFault {}
