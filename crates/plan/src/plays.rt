// A play given as one list of literals: whether it is one, and which clauses it satisfies.
ghost use Rattle.std.specs.Prelude.{◌≡◌, ℕ, ◌<◌, ◌≤◌, false, take, slice_index_or};
ghost use Rattle.formula.specs.Lists.{any};
ghost use Rattle.formula.specs.Game.{same, has, hits};
ghost use Rattle.strategy.specs.RecordedPlan.{is_flat_play};
ghost use Rattle.layout.specs.Table.{Limits};
ghost use Rattle.layout.specs.Shown.{levels_of};
ghost use Rattle.layout.specs.Viewed.{clauses_of};
ghost use Rattle.soundness.specs.Soundness.{SoundFormula};

use layout::{Game, count_variables, is_choice};
use soundness::chain;

// Whether the numbers are a play of the first so many levels: a literal for each variable, by level and ascending.
pub fn is_play(game: &Game, levels: usize, play: &[i32]) -> bool
    requires { (Limits game.now) × (levels ≤ game.now.depth) }
    ensures { result ≡ is_flat_play (take levels (levels_of game.now)) play.now }
{
    let mut rest = play;
    // by number: a level's variables are asked for by its place
    for m in 0..levels {
        let Some((values, after)) = rest.split_at_checked(count_variables(game, m)) else {
            return false;
        };
        if !is_choice(game, m, values) {
            return false;
        }
        rest = after;
    }
    rest.is_empty()
}

// Whether a clause has a literal in a play.
fn is_hit(clause: &[i32], play: &[i32]) -> bool
    ensures { result ≡ any (λ l. has l play.now) clause.now }
{
    clause.iter().any(|l| play.contains(l))
}

// Which clauses of the formula a play satisfies. The chain begins with the last clause.
pub fn satisfied(game: &Game, pool: &[i32], play: &[i32]) -> [bool; 512]
    requires { (Limits game.now) × (SoundFormula game.now pool.now) }
    ensures { (i : ℕ) → i < game.now.clauses → slice_index_or result i false ≡ hits (clauses_of game.now pool.now) play.now i }
{
    let mut hit = [false; 512];
    for (i, clause) in (0..game.clauses).rev().zip(chain(game, pool, game.formula)) {
        hit[i] = is_hit(clause, play);
    }
    hit
}
