// The end of a decided game: its verdict is handed in, and its table is empty.
ghost use Rattle.std.specs.Prelude.{◌≡◌};
ghost use Rattle.game.specs.Tables.{is_held, game_in};
ghost use Rattle.game.specs.Verdicts.{retiring, holds_after, game_after, retire_number};

use crate::table::Table;
use crate::verdict::Verdict;

// Why a game is not retired: the verdict, handed back here, is of another number or side, or the table holds no game that is so decided.
#[derive(Drop)]
pub struct NotItsVerdict {
    pub verdict: Verdict,
}

impl NotItsVerdict {
    pub fn number(&self) -> u8
        ensures { result ≡ retire_number self.now }
    {
        36
    }
}

pub fn retire(table: &mut Table, verdict: Verdict) -> Result<(), NotItsVerdict>
    ensures result { result ≡ retiring (is_held table.old.game) (game_in table.old.game) verdict }
    ensures holds { is_held table.new.game ≡ holds_after (is_held table.old.game) (game_in table.old.game) verdict }
    ensures game { game_in table.new.game ≡ game_after (is_held table.old.game) (game_in table.old.game) verdict }
{
    if !verdict.is_of(table) {
        return Err(NotItsVerdict { verdict });
    }
    table.game = None;
    Ok(())
}
