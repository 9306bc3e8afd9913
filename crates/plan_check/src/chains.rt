// Whether the clause chain of a level of the other side has only records that it may have. Levels count from 0.
ghost use Rattle.std.specs.Prelude.{◌+◌, ◌<◌, Decides};
ghost use Rattle.std.specs.List.{AllByRecursion};
ghost use Rattle.pool.specs.Records.{records, Literal};
ghost use Rattle.strategy.specs.Check.{RecordCheck, RecordChecks};
ghost use Rattle.layout.specs.Table.{level_of};
ghost use Rattle.layout.specs.Shown.{variables_at};
ghost use Rattle.layout.specs.Viewed.{clauses_of, signals_of};
ghost use Rattle.plan_check.specs.Places.{shown_from};
ghost use Rattle.plan_check.specs.Readable.{Readable};

use crate::learned::is_learned;
use crate::openings::is_opening;
use formula::Side;
use layout::Game;
use soundness::chain;

// Whether the numbers are a record of the level m, taken as one of the side, at open, or one that it may have learned.
fn record_holds(game: &Game, pool: &[i32], m: usize, side: Side, numbers: &[i32]) -> bool
    requires { (Readable game.now pool.now) × ((m < game.now.depth) × (AllByRecursion (Literal (signals_of game.now)) numbers.now)) }
    ensures { Decides result (RecordCheck (clauses_of game.now pool.now) game.now.variables side (variables_at game.now m) (shown_from game.now pool.now (m + 1)) numbers.now) }
{
    is_opening(game, pool, m, side, numbers) || is_learned(game, pool, m, side, numbers)
}

// Whether all records of the chain of the level m are.
pub(crate) fn chain_holds(game: &Game, pool: &[i32], m: usize, side: Side) -> bool
    requires { (Readable game.now pool.now) × (m < game.now.depth) }
    ensures { Decides result (RecordChecks (clauses_of game.now pool.now) game.now.variables side (variables_at game.now m) (records pool.now (level_of game.now m).chain) (shown_from game.now pool.now (m + 1))) }
{
    chain(game, pool, game.levels[m].chain).all(|numbers| record_holds(
        game, pool, m, side, numbers,
    ))
}
