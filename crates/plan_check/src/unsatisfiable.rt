// The one question that check puts to an engine: whether a level's chain is unsatisfiable under assumptions about the clauses.
ghost use Rattle.std.specs.Prelude.{◌<◌, ◌≤◌, false, Decides, slice_index_or};
ghost use Rattle.pool.specs.Records.{records};
ghost use Rattle.strategy.specs.Records.{Unsatisfiable, assumptions};
ghost use Rattle.strategy.specs.Questions.{assumed_clauses};
ghost use Rattle.layout.specs.Table.{level_of};
ghost use Rattle.layout.specs.Viewed.{signals_of};
ghost use Rattle.plan_check.specs.Readable.{Readable};

use engine::{Engine, Question, says_no};
use formula::Side;
use layout::{Game, count_signals};
use rules::assumptions_of;

// Whether the chain of the level m, taken as one of the side, is unsatisfiable under what a question assumes where these clauses are satisfied.
pub(crate) fn is_unsatisfiable<E: Engine>(
    engine: &mut E,
    game: &Game,
    pool: &[i32],
    m: usize,
    side: Side,
    satisfied: &[bool; 512],
) -> bool
    requires { (Readable game.now pool.now) × ((m < game.now.depth) × (signals_of game.now ≤ E.Engine.most)) }
    ensures { Decides result (Unsatisfiable (records pool.now (level_of game.now m).chain) (assumptions game.now.variables game.now.clauses side (assumed_clauses game.now.clauses side (λ i. slice_index_or satisfied.now i false)))) }
{
    let assumed = assumptions_of(game.variables, game.clauses, side, satisfied);
    let question = Question {
        signals: count_signals(game),
        pool,
        used: game.used,
        head: game.levels[m].chain,
        assumptions: assumed.as_slice(),
    };
    let mut answer = [0; 1280];
    says_no(engine, question, &mut answer)
}
