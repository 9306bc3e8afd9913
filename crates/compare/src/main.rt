// Puts thousands of pseudo-random questions to the counting and the branching engine and compares their answers.
// Then three larger questions show what branching alone can do. The output is fixed.
#![tactic(auto)]

ghost use Rattle.std.specs.Prelude.{pos, ◌≤ℤ◌};

use branching::Branching;
use engine::{Answer, Counting, Engine, Question, Tally};
use pool::{Place, append};
use random::Random;
use trimmer::Trimmer;

mod random;

// Where the clauses of a pool begin.
const START: Place = Place { head: 0, used: 1 };

// The clauses of a question, in a pool of their own.
// The draft of `ask` has such fields too; a type for both would be longer than what they share.
#[derive(Drop)]
struct Clauses {
    words: Vec<i32>,
    place: Place,
}

impl Clauses {
    fn clear(&mut self) {
        self.place = START;
    }

    fn add(&mut self, numbers: &[i32]) {
        let Place { head, used } = self.place;
        if let Some(place) = append(self.words.as_mut_slice(), used, head, numbers) {
            self.place = place;
        }
    }

    fn question<'a>(&'a self, signals: usize, assumptions: &'a [i32]) -> Question<'a> {
        Question {
            signals,
            pool: self.words.as_slice(),
            used: self.place.used,
            head: self.place.head,
            assumptions,
        }
    }
}

// A signed signal of 1 to 12.
fn number(random: &mut Random) -> i32 {
    let signal = i32::from(random.below(12)) + 1;
    if random.below(2) == 0 {
        signal
    } else {
        -signal
    }
}

fn three(random: &mut Random) -> [i32; 3] {
    std::array::from_fn(|_| number(random))
}

// Fills the clauses anew with 3 to 62 clauses of 1 to 3 numbers.
fn refill(clauses: &mut Clauses, random: &mut Random) {
    clauses.clear();
    for _ in 0..random.below(60) {
        let numbers = three(random);
        match random.below(8) {
            0 => clauses.add(&numbers[0..1]),
            1 | 2 => clauses.add(&numbers[0..2]),
            _ => clauses.add(&numbers),
        }
    }
}

// How the answers of two engines compare.
#[derive(Clone, Copy, Default)]
struct Score {
    yes: u64,
    no: u64,
    apart: u64,
    same: u64,
}

fn compare(random: &mut Random, clauses: &mut Clauses, rounds: u32) -> Score {
    let mut score = Score::default();
    let mut branching = Branching::new();
    for _ in 0..rounds {
        refill(clauses, random);
        let assumptions = three(random);
        let question = clauses.question(12, &assumptions);
        let mut first = [0i32; 12];
        let mut second = [0i32; 12];
        let counted = Counting.ask(question, &mut first);
        let branched = branching.ask(question, &mut second);
        match (counted, branched) {
            (Ok(Answer::Yes), Ok(Answer::Yes)) => {
                score.yes = score.yes.saturating_add(1);
                if first == second {
                    score.same = score.same.saturating_add(1);
                }
            }
            (Ok(Answer::No(_)), Ok(Answer::No(_))) => score.no = score.no.saturating_add(1),
            _ => score.apart = score.apart.saturating_add(1),
        }
    }
    score
}

// Signal 1 brings 2, that brings 3, and so on to 1,001.
fn implications(clauses: &mut Clauses) {
    clauses.clear();
    for signal in 1..=1000u16 {
        let signal = i32::from(signal);
        clauses.add(&[-signal, signal + 1]);
    }
}

// The signal that says that pigeon p sits in hole h.
fn seat(p: u8, h: u8) -> i32
    ensures { pos 0 ≤ℤ result }
{
    i32::from(p) * 5 + i32::from(h) + 1
}

// Six pigeons, each in one of five holes, no two in one.
fn pigeons(clauses: &mut Clauses) {
    clauses.clear();
    for p in 0..6u8 {
        clauses.add(&[0, 1, 2, 3, 4].map(|h| seat(p, h)));
        for q in 0..p {
            for h in 0..5u8 {
                clauses.add(&[-seat(p, h), -seat(q, h)]);
            }
        }
    }
}

fn show<'a>(
    rt: &impl Print,
    name: &str,
    clauses: &'a Clauses,
    signals: usize,
    assumptions: &'a [i32],
) -> std::io::Result<()> {
    let mut out = [0i32; 1280];
    let mut engine = Trimmer::new(Tally::new(Branching::new()));
    match engine.ask(clauses.question(signals, assumptions), &mut out) {
        Ok(Answer::Yes) => println!(rt; "{name}: yes"),
        Ok(Answer::No(count)) => println!(rt; "{name}: no, by {count} assumptions"),
        Err(_) => println!(rt; "{name}: refused"),
    }
}

fn run(rt: &HostRuntime) -> anyhow::Result<()> {
    let heap = rt.alloc();
    let mut clauses = Clauses {
        words: vec![in heap; 0; 65536]?,
        place: START,
    };
    let mut random = Random::new(2026);
    let score = compare(&mut random, &mut clauses, 4000);
    println!(rt;
        "yes by both: {}, of these with the same values: {}",
        score.yes, score.same
    )?;
    println!(rt; "no by both: {}", score.no)?;
    println!(rt; "apart: {}", score.apart)?;
    implications(&mut clauses);
    show(
        rt,
        "1,000 implications from the first",
        &clauses,
        1280,
        &[1],
    )?;
    show(
        rt,
        "1,000 implications against the last",
        &clauses,
        1280,
        &[7, 1, -9, -1001],
    )?;
    pigeons(&mut clauses);
    show(rt, "six pigeons in five holes", &clauses, 30, &[])?;
    Ok(())
}

fn main(rt: HostRuntime) -> anyhow::Result<()> {
    run(&rt)
}
