// The newest entry of a level that fits a set of satisfied clauses.
ghost use Rattle.std.specs.Prelude.{◌≡◌, suc, ◌-◌, ◌<◌, ◌≤◌, false, length, get_or, IfSome, MatchOption, unsigned_abs};
ghost use Rattle.std.proofs.Math.Option.{none, some};
ghost use Rattle.formula.specs.Lists.{all, find};
ghost use Rattle.strategy.specs.Entries.{fits_when};
ghost use Rattle.strategy.specs.Records.{entry_of};
ghost use Rattle.strategy.specs.RecordedPlan.{values_in};
ghost use Rattle.layout.specs.Table.{Limits, level_of};
ghost use Rattle.layout.specs.Shown.{variables_at, entries_in};
ghost use Rattle.soundness.specs.Soundness.{EntryForm, SoundEntries};
ghost use Rattle.plan.specs.Fitting.{set_of, wants};
ghost use Rattle.plan.specs.Naming.{Behind};

use crate::parts::split_at;
use formula::Side;
use layout::{Game, count_variables, magnitude};
use soundness::chain;

// What a side asks of a clause in an entry's set: ours that it is satisfied, the device that it is not.
fn is_wanted(side: Side, satisfied: bool) -> bool
    ensures { result ≡ wants side satisfied }
{
    match side {
        Side::Ours => satisfied,
        Side::Device => !satisfied,
    }
}

// The place of the clause that a number names; the signals of the clauses come behind `base`.
pub fn place(base: usize, x: i32) -> usize
    requires { base < unsigned_abs x }
    ensures { result ≡ unsigned_abs x - suc base }
{
    magnitude(x) - base - 1
}

// Whether a side has what it asks of each clause that the signals name.
fn are_wanted(side: Side, base: usize, signals: &[i32], satisfied: &[bool; 512]) -> bool
    requires { (base ≤ 768) × (Behind base signals.now) }
    ensures { result ≡ all (λ i. wants side (get_or satisfied.now i false)) (set_of base signals.now) }
{
    signals
        .iter()
        .map(|x| place(base, *x))
        .all(|clause| is_wanted(side, satisfied[clause]))
}

// Whether an entry of the level m, which has so many variables and is taken as one of the side, fits.
fn fits_counted(
    game: &Game,
    m: usize,
    count: usize,
    side: Side,
    entry: &[i32],
    satisfied: &[bool; 512],
) -> bool
    requires { (Limits game.now) × ((m < 32) × ((count ≡ length (variables_at game.now m)) × (EntryForm game.now.variables game.now.clauses (level_of game.now m).side (variables_at game.now m) entry.now))) }
    ensures { result ≡ fits_when side (λ i. get_or satisfied.now i false) (entry_of game.now.variables entry.now) }
{
    are_wanted(
        side,
        game.variables,
        split_at(game, m, count, entry).signals,
        satisfied,
    )
}

// Whether an entry of the level m, taken as one of the side, fits.
pub fn fits(game: &Game, m: usize, side: Side, entry: &[i32], satisfied: &[bool; 512]) -> bool
    requires { (Limits game.now) × ((m < 32) × (EntryForm game.now.variables game.now.clauses (level_of game.now m).side (variables_at game.now m) entry.now)) }
    ensures { result ≡ fits_when side (λ i. get_or satisfied.now i false) (entry_of game.now.variables entry.now) }
{
    fits_counted(game, m, count_variables(game, m), side, entry, satisfied)
}

// The values of the newest entry of the level m that fits; the newest heads the chain.
pub fn newest_fitting<'a>(
    game: &Game,
    pool: &'a [i32],
    m: usize,
    satisfied: &[bool; 512],
) -> Option<&'a [i32]>
    requires { (Limits game.now) × ((m < 32) × (SoundEntries game.now pool.now m)) }
    ensures found { MatchOption result (values_in (find (fits_when (level_of game.now m).side (λ i. get_or satisfied.now i false)) (entries_in game.now pool.now m)) ≡ none) (λ x. values_in (find (fits_when (level_of game.now m).side (λ i. get_or satisfied.now i false)) (entries_in game.now pool.now m)) ≡ some x.now) }
    ensures count { IfSome result (λ x. length x.now ≡ length (variables_at game.now m)) }
{
    // The variables of the level are counted once, and not for each entry.
    let count = count_variables(game, m);
    let side = game.levels[m].side;
    let mut entries = chain(game, pool, game.levels[m].entries);
    let entry = entries.find(|entry| fits_counted(game, m, count, side, entry, satisfied))?;
    Some(split_at(game, m, count, entry).values)
}
