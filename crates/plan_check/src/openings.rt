// Whether a record is one of those that a level has when a game is opened, by the formula as the pool has it. Levels and clauses count from 0.
ghost use Rattle.std.specs.Prelude.{◌≡◌, ◌+◌, ◌<◌, true, false, [], ◌∷◌, ◌++◌, pos, neg_ℤ, Decides};
ghost use Rattle.formula.specs.Lists.{In, each};
ghost use Rattle.strategy.specs.Signals.{b_signal};
ghost use Rattle.strategy.specs.Records.{open_records};
ghost use Rattle.layout.specs.Table.{Limits};
ghost use Rattle.layout.specs.Shown.{variables_at};
ghost use Rattle.layout.specs.Viewed.{clauses_of};
ghost use Rattle.plan_check.specs.Made.{literals_at, tail_at, made_by};
ghost use Rattle.plan_check.specs.Places.{shown_from};
ghost use Rattle.plan_check.specs.Readable.{Readable};

use formula::Side;
use layout::{Game, b_signal, t_signal};
use soundness::{chain, is_at};

// Whether a number is the opposite of a signal or of a literal.
fn is_opposite(x: i32, y: i32) -> bool
    ensures { Decides result (x ≡ neg_ℤ y) }
{
    i64::from(x) == -i64::from(y)
}

// Whether the numbers are the literals of a clause at the level m, and then those of the tail.
fn is_made_of(game: &Game, m: usize, clause: &[i32], tail: &[i32], numbers: &[i32]) -> bool
    requires { (Limits game.now) × (m < 32) }
    ensures { Decides result (numbers.now ≡ literals_at (variables_at game.now m) clause.now ++ tail.now) }
{
    // The tail first: it is that of one clause alone, so that most records are told apart by it.
    let Some(front) = numbers.strip_suffix(tail) else {
        return false;
    };
    front
        .iter()
        .eq(clause.iter().filter(|l| is_at(game, m, **l)))
}

// Whether a number is the opposite of a literal that a clause has at the level m.
fn is_opposed(game: &Game, m: usize, clause: &[i32], x: i32) -> bool
    requires { (Limits game.now) × (m < 32) }
    ensures { Decides result (In x (each neg_ℤ (literals_at (variables_at game.now m) clause.now))) }
{
    clause
        .iter()
        .filter(|l| is_at(game, m, **l))
        .any(|l| is_opposite(x, *l))
}

// Whether the numbers are the record of clause i at our level m.
fn is_our_record(
    game: &Game,
    m: usize,
    last: bool,
    i: usize,
    clause: &[i32],
    numbers: &[i32],
) -> bool
    requires { (Limits game.now) × ((m < game.now.depth) × (i < game.now.clauses)) }
    ensures { Decides result (numbers.now ≡ literals_at (variables_at game.now m) clause.now ++ tail_at game.now.variables game.now.clauses last i) }
{
    let t = t_signal(game.variables, i);
    if last {
        return is_made_of(game, m, clause, &[t], numbers);
    }
    let b = b_signal(game.variables, game.clauses, i);
    is_made_of(game, m, clause, &[t, b], numbers)
}

// Whether the numbers are a record of clause i at the device's level m.
fn is_device_record(game: &Game, m: usize, i: usize, clause: &[i32], numbers: &[i32]) -> bool
    requires { (Limits game.now) × ((m < game.now.depth) × (i < game.now.clauses)) }
    ensures { Decides result (In numbers.now (each (λ l. neg_ℤ l ∷ neg_ℤ (pos (b_signal game.now.variables game.now.clauses i)) ∷ []) (literals_at (variables_at game.now m) clause.now))) }
{
    let [x, y] = numbers else {
        return false;
    };
    is_opposite(*y, b_signal(game.variables, game.clauses, i)) && is_opposed(game, m, clause, *x)
}

// Whether the numbers are a record of clause i at the level m, taken as one of the side.
fn is_clause_record(
    game: &Game,
    m: usize,
    side: Side,
    last: bool,
    i: usize,
    clause: &[i32],
    numbers: &[i32],
) -> bool
    requires { (Limits game.now) × ((m < game.now.depth) × (i < game.now.clauses)) }
    ensures { Decides result (In numbers.now (made_by game.now.variables game.now.clauses side (variables_at game.now m) last i clause.now)) }
{
    match side {
        Side::Ours => is_our_record(game, m, last, i, clause, numbers),
        Side::Device => is_device_record(game, m, i, clause, numbers),
    }
}

// Whether the numbers are one of the records that the level m, taken as one of the side, has at open. The chain begins with the last clause.
pub(crate) fn is_opening(game: &Game, pool: &[i32], m: usize, side: Side, numbers: &[i32]) -> bool
    requires { (Readable game.now pool.now) × (m < game.now.depth) }
    ensures { Decides result (In numbers.now (open_records (clauses_of game.now pool.now) game.now.variables side (variables_at game.now m) (shown_from game.now pool.now (m + 1)))) }
{
    let last = m + 1 == game.depth;
    for (i, clause) in (0..game.clauses).rev().zip(chain(game, pool, game.formula)) {
        if is_clause_record(game, m, side, last, i, clause, numbers) {
            return true;
        }
    }
    false
}
