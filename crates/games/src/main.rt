// Plays two small games, E and F, step by step, and prints steps, records, questions and moves. The output is fixed.
#![tactic(auto)]

mod board;

use board::{make_turn, opened, play, print_numbers, print_record};
use engine::{Counting, Engine, Tally};
use formula::Side;
use game::{Table, Verdict, next_move, retire};
use plan_check::check;
use std::io;
use trimmer::Trimmer;

// There is 1 so that for all 2 there is 3: true, so ours wins.
const E: &[u8] = b"p cnf 3 3\ne 1 0\na 2 0\ne 3 0\n1 2 -3 0\n-1 2 -3 0\n-1 -2 3 0\n";

// For all 1 there is 2: false, so the device wins.
const F: &[u8] = b"p cnf 2 2\na 1 0\ne 2 0\n1 2 0\n1 -2 0\n";

fn print_check<E: Engine>(
    rt: &impl Print,
    name: &str,
    table: &Table,
    engine: &mut E,
    pool: &[i32],
    side: Side,
) -> io::Result<()> {
    match check(table, engine, pool, side) {
        Ok(true) => println!(rt; "check for {name}: accepted"),
        Ok(false) => println!(rt; "check for {name}: not accepted"),
        Err(fault) => {
            let number = fault.number();
            println!(rt; "check for {name}: refused {number}")
        }
    }
}

// A whole game over the trimmer above counting: its steps, what it records, and the check for either side.
fn whole_game(rt: &impl Print, name: &str, text: &[u8], pool: &mut [i32]) -> io::Result<()> {
    let words = pool.len();
    println!(rt; "{name} with a pool of {words} words")?;
    let mut table = opened(rt, pool, text, 1)?;
    let mut engine = Trimmer::new(Counting);
    let _ = play(rt, &mut table, &mut engine, pool)?;
    print_record(rt, &table, pool)?;
    print_check(rt, "ours", &table, &mut engine, pool, Side::Ours)?;
    print_check(rt, "the device", &table, &mut engine, pool, Side::Device)?;
    println!(rt; "")
}

// The questions that the steps put to the engine: one for each step.
fn questions(rt: &impl Print, name: &str, text: &[u8], pool: &mut [i32]) -> io::Result<()> {
    println!(rt; "{name} with its questions counted")?;
    let mut table = opened(rt, pool, text, 1)?;
    let mut engine = Tally::new(Counting);
    for number in 1..=32u8 {
        let turn = make_turn(rt, number, &mut table, &mut engine, pool)?;
        let count = engine.questions();
        println!(rt; ", questions so far: {count}")?;
        if !matches!(turn, Ok(None)) {
            break;
        }
    }
    println!(rt; "")
}

fn print_move(
    rt: &impl Print,
    table: &Table,
    verdict: &Verdict,
    pool: &[i32],
    level: usize,
    play: &[i32],
) -> io::Result<()> {
    print!(rt; "level {level} after")?;
    if play.is_empty() {
        print!(rt; " nothing")?;
    }
    for x in play {
        print!(rt; " {x}")?;
    }
    print!(rt; ": ")?;
    let mut values = [0i32; 4];
    match next_move(table, verdict, pool, level, play, &mut values) {
        Ok(Some(count)) => {
            print!(rt; "play")?;
            print_numbers(rt, values.get(0..count).unwrap_or(&[]))
        }
        Ok(None) => println!(rt; "no entry fits"),
        Err(fault) => {
            let number = fault.number();
            println!(rt; "refused {number}")
        }
    }
}

fn print_moves(rt: &impl Print, table: &Table, verdict: &Verdict, pool: &[i32]) -> io::Result<()> {
    print_move(rt, table, verdict, pool, 1, &[])?;
    print_move(rt, table, verdict, pool, 3, &[-1, 2])?;
    print_move(rt, table, verdict, pool, 3, &[-1, -2])?;
    print_move(rt, table, verdict, pool, 3, &[1, 2])?;
    print_move(rt, table, verdict, pool, 2, &[-1])?;
    print_move(rt, table, verdict, pool, 3, &[-1])
}

// Ends a game; gives the verdict back where it is not the game's.
fn print_retire(
    rt: &impl Print,
    name: &str,
    table: &mut Table,
    verdict: Verdict,
) -> io::Result<Option<Verdict>> {
    match retire(table, verdict) {
        Ok(()) => {
            println!(rt; "{name}: retired")?;
            Ok(None)
        }
        Err(refusal) => {
            let number = refusal.number();
            println!(rt; "{name}: refused {number}")?;
            Ok(Some(refusal.verdict))
        }
    }
}

// The moves of E, and the end of both games; each verdict ends its own game only.
fn moves_and_ends(rt: &impl Print, first: &mut [i32], second: &mut [i32]) -> io::Result<()> {
    println!(rt; "the moves of E, and the end of both games")?;
    let mut engine = Trimmer::new(Counting);
    let mut table = opened(rt, first, E, 1)?;
    let mut other = opened(rt, second, F, 2)?;
    let Some(verdict) = play(rt, &mut table, &mut engine, first)? else {
        return Ok(());
    };
    let Some(others) = play(rt, &mut other, &mut engine, second)? else {
        return Ok(());
    };
    print_moves(rt, &table, &verdict, first)?;
    println!(rt; "with the verdict of F:")?;
    print_move(rt, &table, &others, first, 1, &[])?;
    if let Some(others) = print_retire(rt, "E with the verdict of F", &mut table, others)? {
        let _ = print_retire(rt, "F with its verdict", &mut other, others)?;
    }
    let _ = print_retire(rt, "E with its verdict", &mut table, verdict)?;
    print_record(rt, &table, first)?;
    let _ = play(rt, &mut table, &mut engine, first)?;
    Ok(())
}

fn run(rt: &HostRuntime) -> anyhow::Result<()> {
    let mut first = [0i32; 75];
    let mut second = [0i32; 74];
    whole_game(rt, "E", E, &mut first)?;
    whole_game(rt, "E", E, &mut second)?;
    whole_game(rt, "F", F, &mut first)?;
    questions(rt, "E", E, &mut first)?;
    questions(rt, "F", F, &mut first)?;
    moves_and_ends(rt, &mut first, &mut second)?;
    Ok(())
}

fn main(rt: HostRuntime) -> anyhow::Result<()> {
    run(&rt)
}
