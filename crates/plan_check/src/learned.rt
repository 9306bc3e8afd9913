// Whether a record is that of a learned set which contains the set of an entry at the next level. Levels count from 0.
ghost use Rattle.std.specs.Prelude.{◌≡◌, ◌+◌, ◌<◌, ◌≤◌, true, false, T, Decides, slice_index_or};
ghost use Rattle.formula.specs.Lists.{all, Any, elem};
ghost use Rattle.strategy.specs.Check.{entries_at, is_learned_number, learned_set_of};
ghost use Rattle.layout.specs.Table.{Limits};
ghost use Rattle.layout.specs.Shown.{entries_in};
ghost use Rattle.layout.specs.Viewed.{signals_of};
ghost use Rattle.soundness.specs.Soundness.{SoundEntries};
ghost use Rattle.plan_check.specs.Places.{shown_from};
ghost use Rattle.plan_check.specs.Readable.{Readable};
ghost use Rattle.std.specs.List.{AllByRecursion};
ghost use Rattle.pool.specs.Records.{Literal};

use crate::sets::mark;
use formula::Side;
use layout::{Game, magnitude};
use plan::fits;
use soundness::chain;

// Whether a number is the opposite of a signal b at our level, or such a signal at the device's.
fn is_learned_number(variables: usize, clauses: usize, side: Side, x: i32) -> bool
    requires { (variables ≤ 256) × (clauses ≤ 512) }
    ensures { result ≡ is_learned_number variables clauses side x }
{
    if magnitude(x) <= variables + clauses {
        return false;
    }
    match side {
        Side::Ours => x < 0,
        Side::Device => x > 0,
    }
}

// Whether all numbers are.
fn are_learned_numbers(variables: usize, clauses: usize, side: Side, numbers: &[i32]) -> bool
    requires { (variables ≤ 256) × (clauses ≤ 512) }
    ensures { result ≡ all (is_learned_number variables clauses side) numbers.now }
{
    numbers
        .iter()
        .all(|x| is_learned_number(variables, clauses, side, *x))
}

// Whether some entry of the level m has a set of flagged clauses.
pub(crate) fn is_entered(game: &Game, pool: &[i32], m: usize, flags: &[bool; 512]) -> bool
    requires { (Limits game.now) × ((m < 32) × (SoundEntries game.now pool.now m)) }
    ensures { Decides result (Any (λ e. T (all (λ i. slice_index_or flags.now i false) e.set)) (entries_in game.now pool.now m)) }
{
    chain(game, pool, game.levels[m].entries).any(|entry| fits(game, m, Side::Ours, entry, flags))
}

// Whether the numbers are the record that the level m, taken as one of the side, learns with a set that contains the set of some entry at the next level.
pub(crate) fn is_learned(game: &Game, pool: &[i32], m: usize, side: Side, numbers: &[i32]) -> bool
    requires { (Readable game.now pool.now) × ((m < game.now.depth) × (AllByRecursion (Literal (signals_of game.now)) numbers.now)) }
    ensures { Decides result (T (all (is_learned_number game.now.variables game.now.clauses side) numbers.now) × Any (λ e. T (all (λ i. elem i (learned_set_of game.now.variables game.now.clauses numbers.now)) e.set)) (entries_at (shown_from game.now pool.now (m + 1)))) }
{
    if m + 1 == game.depth {
        return false;
    }
    if !are_learned_numbers(game.variables, game.clauses, side, numbers) {
        return false;
    }
    let mut flags = [false; 512];
    mark(game.variables + game.clauses, numbers, true, &mut flags);
    is_entered(game, pool, m + 1, &flags)
}
