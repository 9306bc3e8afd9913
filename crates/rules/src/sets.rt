// The set of clauses of a new entry.
ghost use Rattle.std.specs.Prelude.{◌≡◌, ◌+◌, ◌≤◌, true, false, length, slice_index_or};
ghost use Rattle.arrayvec.specs.ArrayVec.{array_vec_len};
ghost use Rattle.strategy.specs.Steps.{last_entry_set, entry_set};
ghost use Rattle.strategy.specs.Questions.{clauses_named};
ghost use Rattle.rules.specs.Naming.{base_of, wanted, Names};
ghost use Rattle.layout.specs.Table.{Limits};
ghost use Rattle.layout.specs.Viewed.{values_in, clauses_of};
ghost use Rattle.soundness.specs.Soundness.{SoundFormula};

use crate::hits::mark_hits;
use arrayvec::ArrayVec;
use formula::Side;
use layout::{Game, Level, magnitude};

// After a yes at the last level: the clauses satisfied before it, and not by the values chosen there.
pub(crate) fn last_set(game: &Game, chosen: &Level, pool: &[i32]) -> ArrayVec<usize, 512>
    requires { (Limits game.now) × (SoundFormula game.now pool.now) }
    ensures clauses { result.items ≡ last_entry_set (clauses_of game.now pool.now) (λ i. slice_index_or chosen.now.satisfied i false) (values_in game.now.variables chosen.now) }
    ensures few { array_vec_len result ≤ 512 }
{
    let mut marks = [false; 512];
    mark_hits(game, chosen, pool, &mut marks);
    let mut set = ArrayVec::new();
    // by number: the set has the numbers of clauses
    for i in 0..game.clauses {
        if !chosen.satisfied[i] || marks[i] {
            continue;
        }
        set.push(i);
    }
    set
}

// The number behind which the assumed signals of a level of the side come.
fn base_of(variables: usize, clauses: usize, side: Side) -> usize
    requires { (variables ≤ 256) × (clauses ≤ 512) }
    ensures value { result ≡ base_of variables clauses side }
    ensures few { result ≤ 768 }
{
    match side {
        Side::Ours => variables,
        Side::Device => variables + clauses,
    }
}

// Whether an entry after a no at a level of the side takes a clause that is named.
fn is_wanted(side: Side, hit: bool) -> bool
    ensures { result ≡ wanted side hit }
{
    match side {
        Side::Ours => true,
        Side::Device => !hit,
    }
}

// After a no at a level of the side: the clauses named, without those that the values kept at the level before hit if it is the device's.
pub(crate) fn named_set(
    game: &Game,
    side: Side,
    chosen: &Level,
    pool: &[i32],
    names: &[i32],
) -> ArrayVec<usize, 512>
    requires { (Limits game.now) × ((SoundFormula game.now pool.now) × ((length names.now ≤ 512) × (Names game.now.variables game.now.clauses side names.now))) }
    ensures clauses { result.items ≡ entry_set (clauses_of game.now pool.now) side (clauses_named game.now.variables game.now.clauses side names.now) (values_in game.now.variables chosen.now) }
    ensures few { array_vec_len result ≤ length names.now }
{
    let mut marks = [false; 512];
    mark_hits(game, chosen, pool, &mut marks);
    let base = base_of(game.variables, game.clauses, side);
    let mut set = ArrayVec::new();
    for name in names {
        let clause = magnitude(*name) - base - 1;
        if !is_wanted(side, marks[clause]) {
            continue;
        }
        set.push(clause);
    }
    set
}
