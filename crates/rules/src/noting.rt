// What a step writes: entries, and records that a level learns.
ghost use Rattle.std.specs.Prelude.{◌≡◌, ℕ, ◌+◌, ◌<◌, ◌≤◌, true, false, length, slice_index};
ghost use Rattle.arrayvec.specs.ArrayVec.{array_vec_len};
ghost use Rattle.formula.specs.Lists.{each};
ghost use Rattle.formula.specs.Game.{Clauses};
ghost use Rattle.strategy.specs.Records.{learned_record, entry_record};
ghost use Rattle.pool.specs.Append.{Room};
ghost use Rattle.layout.specs.Table.{Limits, level_of};
ghost use Rattle.layout.specs.Viewed.{values_in};
ghost use Rattle.rules.specs.Noting.{signed as signed_signal};
ghost use Rattle.rules.specs.Changes.{held, entered, learned, noted};
ghost use Rattle.rules.specs.Spare.{Spare, SetOf, bound_by};

use crate::values::put_values;
use arrayvec::ArrayVec;
use formula::Side;
use layout::{Game, Level, lay};
use pool::Place;

// The signal of a clause that comes behind `base`, or its opposite.
fn signed(negative: bool, base: usize, clause: usize) -> i32
    requires { (base ≤ 768) × (clause < 512) }
    ensures { result ≡ signed_signal negative base clause }
{
    engine::signed(base + clause, !negative)
}

// The signals of a set of clauses.
pub(crate) fn signals(negative: bool, base: usize, clauses: &[usize]) -> ArrayVec<i32, 768>
    requires { (base ≤ 768) × ((length clauses.now ≤ 512) × (((i : ℕ) → i < length clauses.now → slice_index clauses.now i < 512))) }
    ensures numbers { result.items ≡ each (signed_signal negative base) clauses.now }
    ensures count { array_vec_len result ≡ length clauses.now }
{
    let mut numbers = ArrayVec::new();
    for clause in clauses {
        numbers.push(signed(negative, base, *clause));
    }
    numbers
}

// The numbers of an entry at a level of the side.
fn entry_of(variables: usize, side: Side, set: &[usize], chosen: &Level) -> ArrayVec<i32, 768>
    requires { (variables ≤ 256) × ((length set.now ≤ 512) × (((i : ℕ) → i < length set.now → slice_index set.now i < 512))) }
    ensures { result.items ≡ entry_record variables side (record { set = set.entry.now; values = values_in variables chosen.now }) }
{
    let mut numbers = match side {
        Side::Ours => signals(false, variables, set),
        Side::Device => signals(true, variables, set),
    };
    put_values(variables, chosen, &mut numbers);
    numbers
}

// The numbers of a learned record at a level of the side.
fn learned_of(variables: usize, clauses: usize, side: Side, set: &[usize]) -> ArrayVec<i32, 768>
    requires { (variables ≤ 256) × ((clauses ≤ 512) × ((length set.now ≤ 512) × (((i : ℕ) → i < length set.now → slice_index set.now i < 512)))) }
    ensures { (C : Clauses) → length C ≡ clauses → result.items ≡ learned_record C variables side set.now }
{
    match side {
        Side::Ours => signals(true, variables + clauses, set),
        Side::Device => signals(false, variables + clauses, set),
    }
}

// Enters a set of clauses and the values that `chosen` keeps at the level at j.
fn enter_set(game: &mut Game, pool: &mut [i32], j: usize, set: &[usize], chosen: &Level)
    requires { (Limits game.old) × ((j < 32) × ((SetOf game.old set.now) × (Room (length pool.old) game.old.used (level_of game.old j).entries (length set.now + length (values_in game.old.variables chosen.now))))) }
    ensures { held game.new pool.new ≡ entered game.old pool.old j set.now (values_in game.old.variables chosen.now) }
{
    let entry = entry_of(game.variables, game.levels[j].side, set, chosen);
    let before = Place {
        head: game.levels[j].entries,
        used: game.used,
    };
    let after = lay(pool, before, entry.as_slice());
    game.levels[j].entries = after.head;
    game.used = after.used;
}

// Lets the level at j learn a set of clauses.
fn learn_set(game: &mut Game, pool: &mut [i32], j: usize, set: &[usize])
    requires { (Limits game.old) × ((j < 32) × ((SetOf game.old set.now) × (Room (length pool.old) game.old.used (level_of game.old j).chain (length set.now)))) }
    ensures { (C : Clauses) → length C ≡ game.old.clauses → held game.new pool.new ≡ learned C (held game.old pool.old) j set.now }
{
    let learned = learned_of(game.variables, game.clauses, game.levels[j].side, set);
    let before = Place {
        head: game.levels[j].chain,
        used: game.used,
    };
    let after = lay(pool, before, learned.as_slice());
    game.levels[j].chain = after.head;
    game.used = after.used;
}

// Notes an entry at the level at j. At the first level it decides the game; else the level before learns its set, and is present.
pub(crate) fn note(
    game: &mut Game,
    pool: &mut [i32],
    winner: Side,
    j: usize,
    set: &[usize],
    chosen: &Level,
)
    requires { (Spare game.old pool.old) × ((j < game.old.depth) × ((SetOf game.old set.now) × (length (values_in game.old.variables chosen.now) ≤ bound_by game.old))) }
    ensures { held game.new pool.new ≡ noted game.old pool.old winner j set.now (values_in game.old.variables chosen.now) }
{
    enter_set(game, pool, j, set, chosen);
    if j == 0 {
        game.verdict = Some(winner);
        return;
    }
    learn_set(game, pool, j - 1, set);
    game.present = j - 1;
}
