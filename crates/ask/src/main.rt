// Reads questions from standard input and shows what each engine answers.
//
// One command a line; blank lines and lines that begin with `#` are skipped:
//   signals N     begins a question over the signals 1 to N, with no clauses and no assumptions
//   clause X..    adds a clause: signed signals, perhaps none
//   assume X..    adds assumptions
//   room N        the words there are for an answer (at most 1280, and 1280 at first)
//   ask           asks the question so far
// The first line that is no command ends the program, with the line's number and what is wrong.
#![tactic(auto)]

use ask_words::numbers;
use branching::Branching;
use draft::{Draft, ROOM};
use engine::{Answer, Counting, Engine, Question};
use std::alloc::Global;
use std::io;
use trimmer::Trimmer;
use wrong::Wrong;

mod ask_words;
mod draft;
mod wrong;

// The first words of an answer; `take` needs no bound on their count.
fn print_words(rt: &impl Print, words: &[i32], count: usize) -> io::Result<()> {
    for x in words.iter().take(count) {
        print!(rt; " {x}")?;
    }
    println!(rt; "")
}

// One engine's answer, on a line.
fn show<E: Engine>(
    rt: &impl Print,
    name: &str,
    engine: &mut E,
    question: Question,
    out: &mut [i32],
) -> io::Result<()> {
    print!(rt; "  {name:<20}")?;
    match engine.ask(question, out) {
        Ok(Answer::Yes) => {
            print!(rt; "yes")?;
            print_words(rt, out, question.signals)
        }
        Ok(Answer::No(count)) => {
            print!(rt; "no:")?;
            print_words(rt, out, count)
        }
        Err(refusal) => {
            let number = refusal.number();
            println!(rt; "refused {number}: {refusal}")
        }
    }
}

// The answers of all engines, side by side.
fn ask_all(rt: &impl Print, draft: &Draft) -> io::Result<()> {
    let mut words = [0i32; ROOM];
    let out = &mut words[..draft.room.min(ROOM)];
    let question = draft.question();
    show(rt, "counting", &mut Counting, question, out)?;
    show(
        rt,
        "trimmed counting",
        &mut Trimmer::new(Counting),
        question,
        out,
    )?;
    show(rt, "branching", &mut Branching::new(), question, out)?;
    show(
        rt,
        "trimmed branching",
        &mut Trimmer::new(Branching::new()),
        question,
        out,
    )
}

// Obeys one line.
fn obey(rt: &impl Print, heap: Global, draft: &mut Draft, line: &str) -> Result<(), Wrong> {
    let text = line.trim();
    if text.is_empty() || text.starts_with('#') {
        return Ok(());
    }
    let (name, rest) = text.split_once(' ').unwrap_or((text, ""));
    let values = numbers(heap, rest)?;
    match name {
        "signals" => draft.begin(values.as_slice()),
        "clause" => draft.clause(values.as_slice()),
        "assume" => draft.assume(values.as_slice()),
        "room" => draft.set_room(values.as_slice()),
        "ask" => Ok(ask_all(rt, draft)?),
        _ => Err(Wrong::NoCommand),
    }
}

fn main(rt: HostRuntime) -> anyhow::Result<()> {
    let heap = rt.alloc();
    let mut draft = Draft::new(heap)?;
    for (line, at) in rt.lines(heap).zip(1u64..) {
        let line = line?;
        println!(rt; "{line}")?;
        match obey(&rt, heap, &mut draft, line.as_str()) {
            Ok(()) => {}
            Err(Wrong::Memory(error)) => return Err(error.into()),
            Err(Wrong::Outside(error)) => return Err(error.into()),
            Err(wrong) => return Ok(println!(rt; "line {at}: {wrong}")?),
        }
    }
    Ok(())
}
