// The variables of a level, as the table keeps them: a flag for each number. Levels count from 0.
ghost use Rattle.std.specs.Prelude.{◌≡◌, ◌<◌, ◌≤◌, false, length, ◌==◌, slice_index_or, unsigned_abs};
ghost use Rattle.formula.specs.Lists.{keep, from};
ghost use Rattle.formula.specs.Backward.{is_choice};
ghost use Rattle.layout.specs.Table.{Limits};
ghost use Rattle.layout.specs.Shown.{variables_at};

use crate::game::Game;

// How many of the variables 1 to n are flagged.
pub fn count_flags(variables: usize, flags: &[bool; 257]) -> usize
    requires { variables ≤ 256 }
    ensures count { result ≡ length (keep (λ v. slice_index_or flags.now v false) (from 1 variables)) }
    ensures few { result ≤ 256 }
{
    let mut count = 0;
    // A loop and no `filter` with `count`: this one the compiler turns into a seventh of the steps, and each entry of a pool asks it.
    for v in 1..variables + 1 {
        if !flags[v] {
            continue;
        }
        count += 1;
    }
    count
}

// How many variables a level has.
pub fn count_variables(game: &Game, m: usize) -> usize
    requires { (Limits game.now) × (m < 32) }
    ensures count { result ≡ length (variables_at game.now m) }
    ensures few { result ≤ 256 }
{
    count_flags(game.variables, &game.levels[m].variables)
}

// Whether a number is a literal of the variable v.
fn is_literal(x: i32, v: usize) -> bool
    ensures { result ≡ (unsigned_abs x == v) }
{
    x.unsigned_abs() as usize == v
}

// Whether the numbers are values of a level: a literal for each of its variables, ascending.
pub fn is_choice(game: &Game, m: usize, numbers: &[i32]) -> bool
    requires { (Limits game.now) × (m < 32) }
    ensures { result ≡ is_choice numbers.now (variables_at game.now m) }
{
    let mut rest = numbers;
    // by number: a literal names its variable
    for v in 1..game.variables + 1 {
        if !game.levels[m].variables[v] {
            continue;
        }
        match rest.split_first() {
            Some((x, after)) if is_literal(*x, v) => rest = after,
            _ => return false,
        }
    }
    rest.is_empty()
}
