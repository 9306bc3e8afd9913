// Open: a game of the formula that a text reads as, written into the caller's pool.
ghost use Rattle.std.specs.Prelude.{◌≡◌, length, Ok};
ghost use Rattle.formula.specs.Game.{Qbf};
ghost use Rattle.reader.specs.Text.{reads};
ghost use Rattle.layout.specs.Begun.{Begun};
ghost use Rattle.soundness.specs.Soundness.{SoundPool};
ghost use Rattle.game.specs.Tables.{is_held, game_in};
ghost use Rattle.game.specs.Opens.{opening, open_gives, pool_after, game_after, holds_after};

use crate::faults::{GameFault, MAX_POOL};
use crate::table::Table;
use layout::{words_needed, write_game};
use reader::read;

// Begins a game, whatever the table held before. A refusal leaves table and pool as they were.
pub fn open(table: &mut Table, pool: &mut [i32], text: &[u8], number: u16) -> Result<(), GameFault>
    ensures gives { result ≡ open_gives (opening (length pool.old) (reads text.now)) }
    ensures words { pool.new ≡ pool_after pool.old (opening (length pool.old) (reads text.now)) }
    ensures game { game_in table.new.game ≡ game_after (game_in table.old.game) number pool.old (opening (length pool.old) (reads text.now)) }
    ensures holds { is_held table.new.game ≡ holds_after (is_held table.old.game) (opening (length pool.old) (reads text.now)) }
    ensures begins { (q : Qbf) → opening (length pool.old) (reads text.now) ≡ Ok q → Begun q (game_in table.new.game) pool.new }
    ensures sound { (q : Qbf) → opening (length pool.old) (reads text.now) ≡ Ok q → SoundPool (game_in table.new.game) pool.new }
{
    if pool.len() > MAX_POOL {
        return Err(GameFault::PoolTooLong);
    }
    let formula = read(text)?;
    if pool.len() < words_needed(&formula) {
        return Err(GameFault::PoolTooShort);
    }
    table.game = Some(write_game(&formula, pool, number));
    Ok(())
}
