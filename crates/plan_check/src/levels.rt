// What check asks of the levels, from the first to the last: of the entries at those of the side that is checked, of the chains at the others.
ghost use Rattle.std.specs.Prelude.{◌+◌, ◌<◌, ◌≤◌, Decides};
ghost use Rattle.strategy.specs.Check.{LevelCheck, LevelChecks};
ghost use Rattle.layout.specs.Viewed.{clauses_of, signals_of};
ghost use Rattle.plan_check.specs.Checked.{levels_shown};
ghost use Rattle.plan_check.specs.Places.{level_shown, shown_from};
ghost use Rattle.plan_check.specs.Readable.{Readable};

use crate::chains::chain_holds;
use crate::entries::entries_hold;
use engine::Engine;
use formula::Side;
use layout::Game;

// Of the level m, of the side `level`.
fn level_holds<E: Engine>(
    engine: &mut E,
    game: &Game,
    pool: &[i32],
    m: usize,
    side: Side,
    level: Side,
) -> bool
    requires { (Readable game.now pool.now) × ((m < game.now.depth) × (signals_of game.now ≤ E.Engine.most)) }
    ensures { Decides result (LevelCheck (clauses_of game.now pool.now) game.now.variables side level (level_shown game.now pool.now m) (shown_from game.now pool.now (m + 1))) }
{
    match (side, level) {
        (Side::Ours, Side::Ours) => entries_hold(engine, game, pool, m, Side::Ours),
        (Side::Ours, Side::Device) => chain_holds(game, pool, m, Side::Device),
        (Side::Device, Side::Ours) => chain_holds(game, pool, m, Side::Ours),
        (Side::Device, Side::Device) => entries_hold(engine, game, pool, m, Side::Device),
    }
}

// Of all levels, whose sides alternate.
pub(crate) fn levels_hold<E: Engine>(
    engine: &mut E,
    game: &Game,
    pool: &[i32],
    side: Side,
    first: Side,
) -> bool
    requires { (Readable game.now pool.now) × (signals_of game.now ≤ E.Engine.most) }
    ensures { Decides result (LevelChecks (clauses_of game.now pool.now) game.now.variables side first (levels_shown game.now pool.now)) }
{
    let mut level = first;
    // by number: what lies at a level is asked for by its place
    for m in 0..game.depth {
        if !level_holds(engine, game, pool, m, side, level) {
            return false;
        }
        level = level.other();
    }
    true
}
