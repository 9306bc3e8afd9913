// Opening a game, its steps, and what it has recorded, printed as numbers.
ghost use Rattle.layout.specs.Table.{Limits};

use engine::Engine;
use formula::Side;
use game::{StepFault, Table, Verdict, open, step};
use layout::{Game, count_signals};
use pool::Chain;
use std::io;

pub(crate) fn side_name(side: Side) -> &'static str {
    match side {
        Side::Ours => "ours",
        Side::Device => "the device",
    }
}

pub(crate) fn print_numbers(rt: &impl Print, numbers: &[i32]) -> io::Result<()> {
    for x in numbers {
        print!(rt; " {x}")?;
    }
    println!(rt; "")
}

// A table with a game of the text, or an empty one where it is refused.
pub(crate) fn opened(
    rt: &impl Print,
    pool: &mut [i32],
    text: &[u8],
    number: u16,
) -> io::Result<Table> {
    let mut table = Table::new();
    if let Err(fault) = open(&mut table, pool, text, number) {
        let number = fault.number();
        println!(rt; "open: refused {number}")?;
    }
    Ok(table)
}

// Makes a step, prints what it came to, and gives that back; the line is the caller's to end.
pub(crate) fn make_turn<E: Engine>(
    rt: &impl Print,
    number: u8,
    table: &mut Table,
    engine: &mut E,
    pool: &mut [i32],
) -> io::Result<Result<Option<Verdict>, StepFault>> {
    let turn = step(table, engine, pool);
    match &turn {
        Ok(None) => print!(rt; "step {number}: went on")?,
        Ok(Some(verdict)) => {
            let side = side_name(verdict.side());
            print!(rt; "step {number}: {side}")?;
        }
        Err(fault) => {
            let refusal = fault.number();
            print!(rt; "step {number}: refused {refusal}")?;
        }
    }
    Ok(turn)
}

// Makes steps until a verdict, a refusal or the 32nd, each on a line.
pub(crate) fn play<E: Engine>(
    rt: &impl Print,
    table: &mut Table,
    engine: &mut E,
    pool: &mut [i32],
) -> io::Result<Option<Verdict>> {
    for number in 1..=32u8 {
        let turn = make_turn(rt, number, table, engine, pool)?;
        println!(rt; "")?;
        match turn {
            Ok(None) => {}
            ended => return Ok(ended.ok().flatten()),
        }
    }
    Ok(None)
}

pub(crate) fn print_record(rt: &impl Print, table: &Table, pool: &[i32]) -> io::Result<()> {
    let Some(game) = table.game() else {
        return println!(rt; "the table is empty");
    };
    let used = game.used;
    println!(rt; "words in use: {used}")?;
    for (level, number) in game.levels[..game.depth].iter().zip(1usize..) {
        print_entries(rt, game, pool, level.entries, number)?;
    }
    Ok(())
}

// The entries of a level, newest first.
fn print_entries(
    rt: &impl Print,
    game: &Game,
    pool: &[i32],
    entries: usize,
    level: usize,
) -> io::Result<()>
    requires { Limits game.now }
{
    for entry in Chain::new(count_signals(game), pool, game.used, entries) {
        print!(rt; "entry of level {level}:")?;
        print_numbers(rt, entry)?;
    }
    Ok(())
}
