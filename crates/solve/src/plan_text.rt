// The recorded plan of the winner, level by level.
ghost use Rattle.layout.specs.Table.{Limits};

use crate::wording::{NO_ENTRY, NOTHING_TO_PLAY, plan_heading, when_it_fits};
use formula::Side;
use layout::{Game, Level, count_signals};
use pool::Chain;
use std::io;

// The clause whose signal a number is; None where it is that of a variable. The signals of the clauses follow those of the variables.
fn clause_of(variables: usize, x: i32) -> Option<usize> {
    let signal = x.unsigned_abs() as usize;
    signal.checked_sub(variables).filter(|clause| *clause > 0)
}

// The numbers of the clauses of an entry's set, separated by commas.
fn print_clauses(rt: &impl Print, variables: usize, entry: &[i32]) -> io::Result<()> {
    let clauses = entry.iter().filter_map(|x| clause_of(variables, *x));
    for (at, clause) in clauses.enumerate() {
        let comma = if at == 0 { "" } else { "," };
        print!(rt; "{comma} {clause}")?;
    }
    Ok(())
}

// An entry on a line: when it fits, and the values to play.
fn print_entry(rt: &impl Print, variables: usize, side: Side, entry: &[i32]) -> io::Result<()> {
    let clauses = entry
        .iter()
        .filter_map(|x| clause_of(variables, *x))
        .count();
    let words = when_it_fits(side, clauses);
    let before = words.before;
    let after = words.after;
    print!(rt; "  {before}")?;
    print_clauses(rt, variables, entry)?;
    print!(rt; "{after}: play")?;
    for x in entry.iter().filter(|x| clause_of(variables, **x).is_none()) {
        print!(rt; " {x}")?;
    }
    println!(rt; "")
}

// The entries of a level, newest first: that is the order in which they are tried.
fn print_level(
    rt: &impl Print,
    game: &Game,
    pool: &[i32],
    level: &Level,
    number: usize,
) -> io::Result<()>
    requires { Limits game.now }
{
    println!(rt; "level {number}")?;
    if level.entries == 0 {
        println!(rt; "{NO_ENTRY}")?;
    }
    for entry in Chain::new(count_signals(game), pool, game.used, level.entries) {
        print_entry(rt, game.variables, level.side, entry)?;
    }
    Ok(())
}

pub(crate) fn print_plan(rt: &impl Print, game: &Game, pool: &[i32], winner: Side) -> io::Result<()>
    requires { Limits game.now }
{
    let heading = plan_heading(winner);
    println!(rt; "{heading}")?;
    let levels = &game.levels[..game.depth];
    if levels.iter().all(|level| level.side != winner) {
        println!(rt; "{NOTHING_TO_PLAY}")?;
    }
    for (level, number) in levels.iter().zip(1usize..) {
        if level.side == winner {
            print_level(rt, game, pool, level, number)?;
        }
    }
    Ok(())
}
