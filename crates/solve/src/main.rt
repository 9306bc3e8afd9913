// Reads a formula on standard input, decides it, and prints the winner's plan; or says why not.
#![tactic(auto)]

mod deciding;
mod plan_text;
mod report;
mod wording;

use branching::Branching;
use deciding::decide;
use game::{Table, open};
use listing::Listing;
use reader::read;
use report::{print_check, print_winner, refuse_opening};
use std::io;
use std::io::Read;
use std::process::ExitCode;
use trimmer::Trimmer;

// The words of the pool: as many as a game takes.
const POOL: usize = 1_048_576;

// The clauses of a longer formula are not listed.
const MOST_LISTED: usize = 40;

// Whether the game was decided, and its plan accepted.
fn play(rt: &HostRuntime, table: &mut Table, pool: &mut [i32]) -> io::Result<bool> {
    let mut engine = Trimmer::new(Branching::new());
    match decide(table, &mut engine, pool) {
        Ok(decided) => {
            let winner = decided.verdict.side();
            print_winner(rt, table, pool, winner, decided.steps)?;
            print_check(rt, table, &mut engine, pool, winner)
        }
        Err(undecided) => {
            eprintln!(rt; "{undecided}")?;
            Ok(false)
        }
    }
}

fn run(rt: &HostRuntime) -> anyhow::Result<bool> {
    let mut text = Vec::new(rt.alloc());
    rt.stdin().read_to_end(&mut text)?;
    let mut pool = vec![in rt.alloc(); 0i32; POOL]?;
    let mut table = Table::new();
    if let Err(fault) = open(&mut table, pool.as_mut_slice(), text.as_slice(), 1) {
        refuse_opening(rt, text.as_slice(), fault)?;
        return Ok(false);
    }
    if let Ok(formula) = read(text.as_slice()) {
        rt.println(Listing {
            formula: &formula,
            most: MOST_LISTED,
        })?;
    }
    Ok(play(rt, &mut table, pool.as_mut_slice())?)
}

// The process ends with status 1 where the text is refused, the game is not decided, or the check does not accept.
fn main(rt: HostRuntime) -> anyhow::Result<ExitCode> {
    if run(&rt)? {
        Ok(ExitCode::SUCCESS)
    } else {
        Ok(ExitCode::FAILURE)
    }
}
