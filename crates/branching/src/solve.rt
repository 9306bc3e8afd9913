// The engine: it makes the assumptions true and then searches.
// To 'no' it names the assumptions whose signals the search marked.
ghost use Rattle.std.specs.Prelude.{◌≡◌, ◌≤◌, ◌++◌, length, drop, replicate, pos};
ghost use Rattle.std.specs.List.{AllByRecursion};
ghost use Rattle.pool.specs.Records.{Literal};
ghost use Rattle.pool.specs.Chains.{records_of, signals_of};
ghost use Rattle.engine.specs.Asking.{asked};
ghost use Rattle.engine.specs.Count.{First};
ghost use Rattle.engine.specs.Meaning.{Answered};
ghost use Rattle.branching.specs.Search.{used, Supposed, Solved};

use crate::search::search;
use engine::{Answer, Engine, MAX_SIGNALS, Question, Refusal, admit, copy_front};
use pool::Chain;
use propagation::{assign, place_of, value_of};

// Makes the assumptions true; None where two of them clash, with their signal marked.
fn suppose(
    assumptions: &[i32],
    values: &mut [i32],
    trail: &mut [usize],
    marks: &mut [bool],
) -> Option<usize>
    requires { (AllByRecursion (Literal (length values.old)) assumptions.now) × ((values.old ≡ replicate (length values.old) (pos 0)) × ((length values.old ≤ length trail.old) × (length values.old ≤ length marks.old))) }
    ensures { Supposed assumptions.now values.new trail.new marks.new result }
{
    // `top` counts what was put on the trail
    let mut top = 0;
    for x in assumptions {
        let value = value_of(values, *x);
        if value == 0 {
            assign(values, trail, top, *x);
            top += 1;
        } else if value != *x {
            marks[place_of(*x)] = true;
            return None;
        }
    }
    Some(top)
}

// Whether records and assumptions can be true together, with the values in the first words then.
// If not, the signals of the assumptions that this rests on are marked.
fn solve(
    chain: Chain,
    assumptions: &[i32],
    values: &mut [i32],
    trail: &mut [usize],
    marks: &mut [bool],
) -> bool
    requires { (signals_of chain ≤ length values.old) × ((signals_of chain ≤ length trail.old) × ((signals_of chain ≤ length marks.old) × ((length marks.old ≤ 1280) × (AllByRecursion (Literal (signals_of chain)) assumptions.now)))) }
    ensures { Solved (signals_of chain.entry) (records_of chain.entry) assumptions.now values.new marks.new result }
{
    let s = chain.signals();
    let row = &mut values[0..s];
    row.fill(0);
    marks.fill(false);
    match suppose(assumptions, row, trail, marks) {
        Some(top) => search(chain, row, trail, top, marks),
        None => false,
    }
}

// Writes the assumptions whose signals are marked, in order, and says how many these are.
fn write_used(assumptions: &[i32], marks: &[bool], out: &mut [i32]) -> usize
    requires { (AllByRecursion (Literal (length marks.now)) assumptions.now) × (length assumptions.now ≤ length out.old) }
    ensures count { result ≡ length (used marks.now assumptions.now) }
    ensures words { out.new ≡ used marks.now assumptions.now ++ drop result out.old }
{
    // An index: of a zip over iter_mut a proof knows no word.
    let mut n = 0;
    for x in assumptions {
        if marks[place_of(*x)] {
            out[n] = *x;
            n += 1;
        }
    }
    n
}

#[derive(Clone, Copy)]
pub struct Branching {
    values: [i32; MAX_SIGNALS],
    trail: [usize; MAX_SIGNALS],
    marks: [bool; MAX_SIGNALS],
}

impl Branching {
    pub fn new() -> Self
        ensures { result.values ≡ replicate 1280 (pos 0) }
    {
        Branching {
            values: [0; MAX_SIGNALS],
            trail: [0; MAX_SIGNALS],
            marks: [false; MAX_SIGNALS],
        }
    }
}

impl Engine for Branching {
    ghost most = { 1280 };

    fn largest() -> usize {
        MAX_SIGNALS
    }

    fn ask(&mut self, question: Question, out: &mut [i32]) -> Result<Answer, Refusal>
        ensures answered { Answered 1280 (asked question.entry) out.old out.new result }
        ensures first { First (asked question.entry) out.old out.new result }
    {
        admit(Self::largest(), question, out.len())?;
        let s = question.signals;
        let chain = Chain::new(s, question.pool, question.used, question.head);
        if solve(
            chain,
            question.assumptions,
            &mut self.values,
            &mut self.trail,
            &mut self.marks,
        ) {
            copy_front(&self.values, s, out);
            Ok(Answer::Yes)
        } else {
            let c = write_used(question.assumptions, &self.marks, out);
            Ok(Answer::No(c))
        }
    }
}
