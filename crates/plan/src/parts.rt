// The two parts of an entry's record: the signals of its set, then its values.
ghost use Rattle.std.specs.Prelude.{◌≡◌, ◌<◌, length};
ghost use Rattle.strategy.specs.Records.{entry_of};
ghost use Rattle.layout.specs.Table.{Limits, level_of};
ghost use Rattle.layout.specs.Shown.{variables_at};
ghost use Rattle.soundness.specs.Soundness.{EntryForm};
ghost use Rattle.plan.specs.Fitting.{set_of};
ghost use Rattle.plan.specs.Naming.{Behind};

use layout::{Game, count_variables};

#[derive(Clone, Copy)]
pub struct Parts<'a> {
    pub signals: &'a [i32],
    pub values: &'a [i32],
}

// The parts of an entry of the level m, which has a value for each of its so many variables.
pub(crate) fn split_at<'a>(game: &Game, m: usize, count: usize, entry: &'a [i32]) -> Parts<'a>
    requires { (Limits game.now) × ((m < 32) × ((count ≡ length (variables_at game.now m)) × (EntryForm game.now.variables game.now.clauses (level_of game.now m).side (variables_at game.now m) entry.now))) }
    ensures is { entry_of game.now.variables entry.now ≡ record { set = set_of game.now.variables result.signals.now; values = result.values.now } }
    ensures count { length result.values.now ≡ length (variables_at game.now m) }
    ensures named { Behind game.now.variables result.signals.now }
{
    let Some((signals, values)) = entry.split_at_checked(entry.len() - count) else {
        unreachable()
    };
    Parts { signals, values }
}

// The parts of an entry of the level m.
pub fn split_entry<'a>(game: &Game, m: usize, entry: &'a [i32]) -> Parts<'a>
    requires { (Limits game.now) × ((m < 32) × (EntryForm game.now.variables game.now.clauses (level_of game.now m).side (variables_at game.now m) entry.now)) }
    ensures is { entry_of game.now.variables entry.now ≡ record { set = set_of game.now.variables result.signals.now; values = result.values.now } }
    ensures count { length result.values.now ≡ length (variables_at game.now m) }
    ensures named { Behind game.now.variables result.signals.now }
{
    split_at(game, m, count_variables(game, m), entry)
}
