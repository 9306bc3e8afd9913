// What the program says of a game: refusals on standard error, the winner, the plan and its check on standard output.
use crate::plan_text::print_plan;
use crate::wording::{steps_word, what_it_means, winner_name};
use engine::Engine;
use formula::Side;
use game::{GameFault, Table};
use listing::Refused;
use plan_check::check;
use std::io;

pub(crate) fn refuse_opening(rt: &impl Eprint, text: &[u8], fault: GameFault) -> io::Result<()> {
    if let GameFault::Text(fault) = fault {
        return rt.eprintln(Refused { text, fault });
    }
    let number = fault.number();
    eprintln!(rt; "refused {number}: {fault}")
}

// Checks what is recorded, from nothing but table and pool.
pub(crate) fn print_check<E: Engine>(
    rt: &impl Print,
    table: &Table,
    engine: &mut E,
    pool: &[i32],
    winner: Side,
) -> io::Result<bool> {
    let checked = check(table, engine, pool, winner);
    match checked {
        Ok(true) => println!(rt; "checked: accepted")?,
        Ok(false) => println!(rt; "checked: not accepted")?,
        Err(fault) => {
            let number = fault.number();
            println!(rt; "checked: refused {number}: {fault}")?;
        }
    }
    Ok(matches!(checked, Ok(true)))
}

pub(crate) fn print_winner(
    rt: &impl Print,
    table: &Table,
    pool: &[i32],
    winner: Side,
    steps: u64,
) -> io::Result<()> {
    let name = winner_name(winner);
    let meaning = what_it_means(winner);
    let unit = steps_word(steps);
    println!(rt; "")?;
    println!(rt; "{name} after {steps} {unit}: {meaning}")?;
    match table.game() {
        Some(game) => print_plan(rt, game, pool, winner),
        None => Ok(()),
    }
}
