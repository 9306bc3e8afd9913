// The verdict of a decided game, as a token: step makes it, the winner's moves are asked for with it, and retire takes it in.
// It is two plain numbers, so that it says which game it is of and no more.
ghost use Rattle.std.specs.Prelude.{◌≡◌};
ghost use Rattle.game.specs.Tables.{is_held, game_in};
ghost use Rattle.game.specs.Verdicts.{verdict_of, is_verdict_of};

use crate::table::Table;
use formula::Side;

#[derive(Drop)]
pub struct Verdict {
    number: u16,
    side: Side,
}

impl Verdict {
    pub(crate) fn new(number: u16, side: Side) -> Verdict
        ensures { result ≡ verdict_of number side }
    {
        Verdict { number, side }
    }

    // The number that the caller has given the game.
    pub fn number(&self) -> u16
        ensures { result ≡ self.now.number }
    {
        self.number
    }

    // The side that has won.
    pub fn side(&self) -> Side
        ensures { result ≡ self.now.side }
    {
        self.side
    }

    // Whether the table holds a game of this number that this side has won.
    pub(crate) fn is_of(&self, table: &Table) -> bool
        ensures { result ≡ is_verdict_of (is_held table.now.game) (game_in table.now.game) self.now }
    {
        match &table.game {
            Some(game) => game.number == self.number && game.verdict == Some(self.side),
            None => false,
        }
    }
}
