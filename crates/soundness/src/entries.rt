// Whether a record has the form of an entry: the signals of a set of clauses, then a literal for each variable of the level.
ghost use Rattle.std.specs.Prelude.{◌≡◌, ◌<◌, Decides};
ghost use Rattle.layout.specs.Table.{Limits, level_of};
ghost use Rattle.layout.specs.Shown.{variables_at};
ghost use Rattle.soundness.specs.Soundness.{EntryForm};
ghost use Rattle.soundness.specs.Forms.{is_signed, are_signals};

use formula::Side;
use layout::{Game, count_variables, is_choice};

// Whether a number has the sign of a side's signals.
fn is_signed(side: Side, x: i32) -> bool
    ensures { result ≡ is_signed side x }
{
    match side {
        Side::Ours => x > 0,
        Side::Device => x < 0,
    }
}

// Whether the numbers are signals of that side above `low` and up to `top`, ascending.
fn are_signals(side: Side, low: usize, top: usize, numbers: &[i32]) -> bool
    ensures { result ≡ are_signals side low top numbers.now }
{
    // A loop: each signal is compared with the one before it.
    let mut last = low;
    for x in numbers {
        let signal = x.unsigned_abs() as usize;
        if !is_signed(side, *x) || signal <= last || signal > top {
            return false;
        }
        last = signal;
    }
    true
}

pub(crate) fn is_entry(game: &Game, m: usize, numbers: &[i32]) -> bool
    requires { (Limits game.now) × (m < 32) }
    ensures { Decides result (EntryForm game.now.variables game.now.clauses (level_of game.now m).side (variables_at game.now m) numbers.now) }
{
    let count = count_variables(game, m);
    if numbers.len() < count {
        return false;
    }
    let Some((signals, values)) = numbers.split_at_checked(numbers.len() - count) else {
        return false;
    };
    are_signals(
        game.levels[m].side,
        game.variables,
        game.variables + game.clauses,
        signals,
    ) && is_choice(game, m, values)
}
