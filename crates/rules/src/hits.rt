// Which clauses of the formula, as the pool has it, are hit by the values that a level keeps.
ghost use Rattle.std.specs.Prelude.{◌≡◌, ℕ, ◌<◌, ◌≤◌, true, false, ◌||◌, slice_index_or};
ghost use Rattle.formula.specs.Lists.{any};
ghost use Rattle.formula.specs.Game.{has, hits};
ghost use Rattle.layout.specs.Table.{Limits};
ghost use Rattle.layout.specs.Viewed.{values_in, clauses_of};
ghost use Rattle.soundness.specs.Soundness.{SoundFormula};

use layout::{Game, Level, magnitude};
use soundness::chain;

// Whether a literal is among the values of a level.
pub(crate) fn is_true(variables: usize, level: &Level, literal: i32) -> bool
    requires { variables ≤ 256 }
    ensures { result ≡ has literal (values_in variables level.now) }
{
    let v = magnitude(literal);
    if v < 1 || v > variables {
        return false;
    }
    level.variables[v] && level.values[v] == (literal > 0)
}

// Whether one of these literals is.
pub(crate) fn is_hit(variables: usize, level: &Level, clause: &[i32]) -> bool
    requires { variables ≤ 256 }
    ensures { result ≡ any (λ l. has l (values_in variables level.now)) clause.now }
{
    clause.iter().any(|l| is_true(variables, level, *l))
}

// Marks the clauses that are hit by the level's values, by their places; the formula's last clause heads its chain.
pub(crate) fn mark_hits(game: &Game, level: &Level, pool: &[i32], marks: &mut [bool; 512])
    requires { (Limits game.now) × (SoundFormula game.now pool.now) }
    ensures { (i : ℕ) → slice_index_or marks.new i false ≡ (hits (clauses_of game.now pool.now) (values_in game.now.variables level.now) i || slice_index_or marks.old i false) }
{
    for (i, clause) in (0..game.clauses).rev().zip(chain(game, pool, game.formula)) {
        if !is_hit(game.variables, level, clause) {
            continue;
        }
        marks[i] = true;
    }
}
