// The call: whether the chains and entries of a game prove that a side has won.
ghost use Rattle.std.specs.Prelude.{◌≤◌, Decides};
ghost use Rattle.layout.specs.Table.{Limits};
ghost use Rattle.layout.specs.Viewed.{signals_of};
ghost use Rattle.soundness.specs.Soundness.{SoundPool};
ghost use Rattle.game.specs.Tables.{is_held, game_in};
ghost use Rattle.plan_check.specs.Checked.{Accepts, Checked};

use crate::faults::CheckFault;
use crate::levels::levels_hold;
use crate::start::start_holds;
use engine::Engine;
use formula::Side;
use game::Table;
use layout::{Game, count_signals};
use soundness::is_sound;

// Whether all that check asks holds of a sound pool. The side of each level follows from that of the first.
// Game and pool are no struct that keeps the soundness: a ghost field's fact has one proof at most, and a record may be that of more than one entry.
fn accepts<E: Engine>(engine: &mut E, game: &Game, pool: &[i32], side: Side) -> bool
    requires { (Limits game.now) × ((SoundPool game.now pool.now) × (signals_of game.now ≤ E.Engine.most)) }
    ensures { Decides result (Accepts game.now pool.now side) }
{
    let first = game.levels[0].side;
    if !start_holds(engine, game, pool, side, first) {
        return false;
    }
    levels_hold(engine, game, pool, side, first)
}

// True exactly when all that check asks of the side holds, over any engine that takes as many signals as the game has.
// Nothing is changed.
pub fn check<E: Engine>(
    table: &Table,
    engine: &mut E,
    pool: &[i32],
    side: Side,
) -> Result<bool, CheckFault>
    ensures { Checked E.Engine.most (is_held table.now.game) (game_in table.now.game) pool.now side result }
{
    let game = table.game().ok_or(CheckFault::EmptyTable)?;
    if !is_sound(game, pool) {
        return Err(CheckFault::UnsoundPool);
    }
    if count_signals(game) > E::largest() {
        return Err(CheckFault::TooManySignals);
    }
    Ok(accepts(engine, game, pool, side))
}
