// Whether a pool can be read as the game that a table speaks of. The caller owns the pool, so each call asks this again.
ghost use Rattle.std.specs.Prelude.{◌≡◌, ◌<◌, true, Decides, unsigned_abs};
ghost use Rattle.formula.specs.Lists.{All, elem};
ghost use Rattle.formula.specs.Proper.{Bound};
ghost use Rattle.pool.specs.Records.{records, Sound};
ghost use Rattle.pool.specs.Chains.{records_of, signals_of as signals_read, sound_of};
ghost use Rattle.layout.specs.Table.{Limits};
ghost use Rattle.layout.specs.Shown.{variables_at, levels_of};
ghost use Rattle.layout.specs.Viewed.{signals_of};
ghost use Rattle.soundness.specs.Soundness.{SoundFormula, SoundEntries, SoundLevel, SoundPool};

use crate::entries::is_entry;
use formula::MAX_LITERALS;
use layout::{Game, magnitude};
use pool::Chain;

// The chain at a head, in the words that the game has in use.
pub fn chain<'a>(game: &Game, pool: &'a [i32], head: usize) -> Chain<'a>
    requires { Limits game.now }
    ensures sound { Decides (sound_of result) (Sound (signals_of game.now) pool.now game.now.used head) }
    ensures records { sound_of result ≡ true → records_of result ≡ records pool.now head }
    ensures signals { signals_read result ≡ signals_of game.now }
{
    Chain::new(game.variables + 2 * game.clauses, pool, game.used, head)
}

// Whether a literal's variable is of the level m.
pub fn is_at(game: &Game, m: usize, literal: i32) -> bool
    requires { (Limits game.now) × (m < 32) }
    ensures { result ≡ elem (unsigned_abs literal) (variables_at game.now m) }
{
    let v = magnitude(literal);
    if v < 1 || v > game.variables {
        return false;
    }
    game.levels[m].variables[v]
}

// Whether a number is a literal of a variable that some level binds.
fn is_bound(game: &Game, x: i32) -> bool
    requires { Limits game.now }
    ensures { Decides result (Bound (levels_of game.now) (unsigned_abs x)) }
{
    (0..game.depth).any(|m| is_at(game, m, x))
}

// Whether all numbers are such literals.
fn are_bound(game: &Game, numbers: &[i32]) -> bool
    requires { Limits game.now }
    ensures { Decides result (All (λ l. Bound (levels_of game.now) (unsigned_abs l)) numbers.now) }
{
    numbers.iter().all(|x| is_bound(game, *x))
}

// Whether the formula's chain has as many clauses as the game, and few enough literals, all of bound variables.
fn is_formula_sound(game: &Game, pool: &[i32]) -> bool
    requires { Limits game.now }
    ensures { Decides result (SoundFormula game.now pool.now) }
{
    let mut rest = chain(game, pool, game.formula);
    if !rest.is_sound() {
        return false;
    }
    // One loop that counts as it goes: it stops at the limits, so that no sum overflows.
    let mut clauses = 0;
    let mut literals = 0;
    while let Some(clause) = rest.next() {
        if clauses == game.clauses
            || clause.len() > MAX_LITERALS - literals
            || !are_bound(game, clause)
        {
            return false;
        }
        clauses += 1;
        literals += clause.len();
    }
    clauses == game.clauses
}

// Whether a level's entries are a sound chain of records that have the form of one.
fn are_entries(game: &Game, pool: &[i32], m: usize) -> bool
    requires { (Limits game.now) × (m < 32) }
    ensures { Decides result (SoundEntries game.now pool.now m) }
{
    let mut entries = chain(game, pool, game.levels[m].entries);
    entries.is_sound() && entries.all(|entry| is_entry(game, m, entry))
}

// Whether the chains of a level are sound.
fn is_level_sound(game: &Game, pool: &[i32], m: usize) -> bool
    requires { (Limits game.now) × (m < 32) }
    ensures { Decides result (SoundLevel game.now pool.now m) }
{
    chain(game, pool, game.levels[m].chain).is_sound() && are_entries(game, pool, m)
}

// Whether the pool is sound for the game.
pub fn is_sound(game: &Game, pool: &[i32]) -> bool
    requires { Limits game.now }
    ensures { Decides result (SoundPool game.now pool.now) }
{
    if pool.len() != game.words || !is_formula_sound(game, pool) {
        return false;
    }
    (0..game.depth).all(|m| is_level_sound(game, pool, m))
}
