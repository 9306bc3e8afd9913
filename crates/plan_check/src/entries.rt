// Whether each entry of a level of the side that is checked does what it promises. Levels count from 0.
ghost use Rattle.std.specs.Prelude.{◌≡◌, ℕ, ◌+◌, ◌<◌, ◌≤◌, true, false, if◌then◌else◌, Decides, slice_index_or};
ghost use Rattle.formula.specs.Lists.{All, elem};
ghost use Rattle.formula.specs.Game.{hits};
ghost use Rattle.formula.specs.declared.side.Side.TheVariants.{Ours, Device};
ghost use Rattle.strategy.specs.Records.{entry_of};
ghost use Rattle.strategy.specs.Check.{EntryCheck};
ghost use Rattle.layout.specs.Table.{Limits, level_of};
ghost use Rattle.layout.specs.Shown.{variables_at, entries_in};
ghost use Rattle.layout.specs.Viewed.{clauses_of, signals_of};
ghost use Rattle.soundness.specs.Soundness.{EntryForm, SoundFormula};
ghost use Rattle.plan.specs.Fitting.{set_of};
ghost use Rattle.plan.specs.Naming.{Behind};
ghost use Rattle.plan_check.specs.Places.{shown_from};
ghost use Rattle.plan_check.specs.Readable.{Readable};

use crate::sets::{is_apart, is_full, mark};
use crate::unsatisfiable::is_unsatisfiable;
use engine::Engine;
use formula::Side;
use layout::Game;
use plan::{Parts, satisfied, split_entry};
use soundness::chain;

// The clauses of an entry's set, and those that its values hit.
fn covered(game: &Game, pool: &[i32], parts: Parts) -> [bool; 512]
    requires { (Limits game.now) × ((SoundFormula game.now pool.now) × (Behind game.now.variables parts.signals.now)) }
    ensures { (i : ℕ) → i < game.now.clauses → slice_index_or result i false ≡ (if elem i (set_of game.now.variables parts.entry.signals.now) then true else hits (clauses_of game.now pool.now) parts.entry.values.now i) }
{
    let mut flags = satisfied(game, pool, parts.values);
    mark(game.variables, parts.signals, true, &mut flags);
    flags
}

// Of an entry of our level m: the clauses of its set and those that its values hit are all that matter to the levels after.
fn our_entry_holds<E: Engine>(
    engine: &mut E,
    game: &Game,
    pool: &[i32],
    m: usize,
    entry: &[i32],
) -> bool
    requires { (Readable game.now pool.now) × ((m < game.now.depth) × ((signals_of game.now ≤ E.Engine.most) × (EntryForm game.now.variables game.now.clauses (level_of game.now m).side (variables_at game.now m) entry.now))) }
    ensures { Decides result (EntryCheck (clauses_of game.now pool.now) game.now.variables Ours (shown_from game.now pool.now (m + 1)) (entry_of game.now.variables entry.now)) }
{
    let parts = split_entry(game, m, entry);
    let flags = covered(game, pool, parts);
    if m + 1 == game.depth {
        return is_full(game.clauses, &flags);
    }
    is_unsatisfiable(engine, game, pool, m + 1, Side::Device, &flags)
}

// Of an entry of the device's level m: its values hit no clause of its set, and the levels after cannot satisfy all of these.
fn device_entry_holds<E: Engine>(
    engine: &mut E,
    game: &Game,
    pool: &[i32],
    m: usize,
    entry: &[i32],
) -> bool
    requires { (Readable game.now pool.now) × ((m < game.now.depth) × ((signals_of game.now ≤ E.Engine.most) × (EntryForm game.now.variables game.now.clauses (level_of game.now m).side (variables_at game.now m) entry.now))) }
    ensures { Decides result (EntryCheck (clauses_of game.now pool.now) game.now.variables Device (shown_from game.now pool.now (m + 1)) (entry_of game.now.variables entry.now)) }
{
    if m + 1 == game.depth {
        return false;
    }
    let parts = split_entry(game, m, entry);
    let mut outside = [true; 512];
    mark(game.variables, parts.signals, false, &mut outside);
    let hit = satisfied(game, pool, parts.values);
    if !is_apart(game.clauses, &outside, &hit) {
        return false;
    }
    is_unsatisfiable(engine, game, pool, m + 1, Side::Ours, &outside)
}

// Of an entry of the level m, taken as one of the side.
fn entry_holds<E: Engine>(
    engine: &mut E,
    game: &Game,
    pool: &[i32],
    m: usize,
    side: Side,
    entry: &[i32],
) -> bool
    requires { (Readable game.now pool.now) × ((m < game.now.depth) × ((signals_of game.now ≤ E.Engine.most) × (EntryForm game.now.variables game.now.clauses (level_of game.now m).side (variables_at game.now m) entry.now))) }
    ensures { Decides result (EntryCheck (clauses_of game.now pool.now) game.now.variables side (shown_from game.now pool.now (m + 1)) (entry_of game.now.variables entry.now)) }
{
    match side {
        Side::Ours => our_entry_holds(engine, game, pool, m, entry),
        Side::Device => device_entry_holds(engine, game, pool, m, entry),
    }
}

// Of all entries of the level m.
pub(crate) fn entries_hold<E: Engine>(
    engine: &mut E,
    game: &Game,
    pool: &[i32],
    m: usize,
    side: Side,
) -> bool
    requires { (Readable game.now pool.now) × ((m < game.now.depth) × (signals_of game.now ≤ E.Engine.most)) }
    ensures { Decides result (All (EntryCheck (clauses_of game.now pool.now) game.now.variables side (shown_from game.now pool.now (m + 1))) (entries_in game.now pool.now m)) }
{
    // A loop: each question changes the engine.
    let mut rest = chain(game, pool, game.levels[m].entries);
    while let Some(entry) = rest.next() {
        if !entry_holds(engine, game, pool, m, side, entry) {
            return false;
        }
    }
    true
}
