// What check asks of the start of the game, before any level was played.
ghost use Rattle.std.specs.Prelude.{◌<◌, ◌≤◌, Decides};
ghost use Rattle.formula.specs.Lists.{Any};
ghost use Rattle.strategy.specs.Check.{StartCheck};
ghost use Rattle.layout.specs.Table.{Limits};
ghost use Rattle.layout.specs.Shown.{entries_in};
ghost use Rattle.layout.specs.Viewed.{clauses_of, signals_of};
ghost use Rattle.soundness.specs.Soundness.{SoundEntries};
ghost use Rattle.plan_check.specs.Checked.{levels_shown};
ghost use Rattle.plan_check.specs.Readable.{Readable};

use crate::learned::is_entered;
use crate::unsatisfiable::is_unsatisfiable;
use engine::Engine;
use formula::Side;
use layout::Game;
use soundness::chain;

// Whether the level m has an entry.
fn has_entry(game: &Game, pool: &[i32], m: usize) -> bool
    requires { (Limits game.now) × ((m < 32) × (SoundEntries game.now pool.now m)) }
    ensures { Decides result (Any (λ e. Unit {0}) (entries_in game.now pool.now m)) }
{
    chain(game, pool, game.levels[m].entries).next().is_some()
}

// Whether the start is won by the side. Nothing is satisfied before the first level, whose side is `first`.
pub(crate) fn start_holds<E: Engine>(
    engine: &mut E,
    game: &Game,
    pool: &[i32],
    side: Side,
    first: Side,
) -> bool
    requires { (Readable game.now pool.now) × (signals_of game.now ≤ E.Engine.most) }
    ensures { Decides result (StartCheck (clauses_of game.now pool.now) game.now.variables side first (levels_shown game.now pool.now)) }
{
    if game.depth == 0 {
        return match side {
            Side::Ours => game.clauses == 0,
            Side::Device => game.clauses > 0,
        };
    }
    let none = [false; 512];
    match (side, first) {
        (Side::Ours, Side::Ours) => is_entered(game, pool, 0, &none),
        (Side::Ours, Side::Device) => is_unsatisfiable(engine, game, pool, 0, Side::Device, &none),
        (Side::Device, Side::Ours) => is_unsatisfiable(engine, game, pool, 0, Side::Ours, &none),
        (Side::Device, Side::Device) => has_entry(game, pool, 0),
    }
}
