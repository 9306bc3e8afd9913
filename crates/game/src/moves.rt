// The next move of the side that has won, after any play of the levels before: what its recorded plan says.
ghost use Rattle.std.specs.Prelude.{◌≡◌, ◌≤◌, ◌++◌, length, drop, MatchResult};
ghost use Rattle.layout.specs.Table.{Limits};
ghost use Rattle.plan.specs.NextMove.{is_level_of};
ghost use Rattle.game.specs.Tables.{is_held, game_in};
ghost use Rattle.game.specs.Moves.{move_number, called, Refused, Taken, Moved};

use crate::table::Table;
use crate::verdict::Verdict;
use formula::Side;
use layout::{Game, count_variables};
use plan::{is_play, newest_fitting, satisfied};
use soundness::is_sound;

// Why no move is given, in the order in which it is looked at.
#[derive(Clone, Copy)]
pub enum MoveFault {
    // 31: the table holds no game
    EmptyTable,
    // 36: the verdict is of another number or side, or the game is not so decided
    NotItsVerdict,
    // 35: the pool is not sound for the game
    UnsoundPool,
    // 14: the level is absent, or not the winner's
    NotTheWinnersLevel,
    // 13: the play is not one literal for each variable of the levels before, by level and ascending variable
    NotAPlay,
    // 12: the slice is shorter than the level's values
    ShortSlice,
}

impl MoveFault {
    pub fn number(self) -> u8
        ensures { result ≡ move_number self }
    {
        match self {
            MoveFault::EmptyTable => 31,
            MoveFault::NotItsVerdict => 36,
            MoveFault::UnsoundPool => 35,
            MoveFault::NotTheWinnersLevel => 14,
            MoveFault::NotAPlay => 13,
            MoveFault::ShortSlice => 12,
        }
    }
}

// Whether the level is there, and of that side. Levels count from 1.
fn is_level_of(game: &Game, side: Side, level: usize) -> bool
    requires { Limits game.now }
    ensures { result ≡ is_level_of game.now side level }
{
    level >= 1 && level <= game.depth && game.levels[level - 1].side == side
}

// The table's game, or the first refusal, for a slice of so many words.
fn admit<'a>(
    table: &'a Table,
    verdict: &Verdict,
    pool: &[i32],
    level: usize,
    play: &[i32],
    room: usize,
) -> Result<&'a Game, MoveFault>
    ensures { MatchResult result (λ g. (g.now ≡ game_in table.now.game) × Taken (called (is_held table.now.game) (game_in table.now.game) verdict.now pool.now level play.now room)) (Refused (called (is_held table.now.game) (game_in table.now.game) verdict.now pool.now level play.now room)) }
{
    let game = table.game().ok_or(MoveFault::EmptyTable)?;
    if !verdict.is_of(table) {
        return Err(MoveFault::NotItsVerdict);
    }
    if !is_sound(game, pool) {
        return Err(MoveFault::UnsoundPool);
    }
    if !is_level_of(game, verdict.side(), level) {
        return Err(MoveFault::NotTheWinnersLevel);
    }
    if !is_play(game, level - 1, play) {
        return Err(MoveFault::NotAPlay);
    }
    if room < count_variables(game, level - 1) {
        return Err(MoveFault::ShortSlice);
    }
    Ok(game)
}

// Writes values to the front of a slice, and counts them.
fn write(x: &[i32], values: &mut [i32]) -> usize
    requires { length x.now ≤ length values.old }
    ensures count { result ≡ length x.now }
    ensures written { values.new ≡ x.now ++ drop (length x.now) values.old }
{
    values[0..x.len()].copy_from_slice(x);
    x.len()
}

// The winner's move at a level after the play of the levels before: the values of the newest entry that fits the clauses which
// the play satisfies are written as literals to the front of `values`, and counted. Where no entry fits, nothing is written.
pub fn next_move(
    table: &Table,
    verdict: &Verdict,
    pool: &[i32],
    level: usize,
    play: &[i32],
    values: &mut [i32],
) -> Result<Option<usize>, MoveFault>
    ensures { Moved (called (is_held table.now.game) (game_in table.now.game) verdict.now pool.now level play.now (length values.old)) values.old values.new result }
{
    let game = admit(table, verdict, pool, level, play, values.len())?;
    let satisfied = satisfied(game, pool, play);
    let Some(x) = newest_fitting(game, pool, level - 1, &satisfied) else {
        return Ok(None);
    };
    Ok(Some(write(x, values)))
}
