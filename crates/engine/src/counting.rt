// An engine that tries one assignment after another, for up to 24 signals.
// It gives the first one in order, signal 1 leading and false before true, and to 'no' names all assumptions.
ghost use Rattle.std.specs.Prelude.{◌≡◌, ◌<◌, ◌≤◌, ◌++◌, length, drop, Decides};
ghost use Rattle.std.specs.List.{AllByRecursion};
ghost use Rattle.pool.specs.Records.{Literal};
ghost use Rattle.pool.specs.Chains.{records_of, signals_of};
ghost use Rattle.engine.specs.Asking.{asked};
ghost use Rattle.engine.specs.Truth.{literal, clause, each, chain as all_true};
ghost use Rattle.engine.specs.Meaning.{Meets, Answered, values};
ghost use Rattle.engine.specs.Count.{numbered, Least, First, AllNamed};

use crate::admission::admit;
use crate::asking::Engine;
use crate::question::{Answer, Question, Refusal};
use crate::words::{copy_front, signed};
use pool::Chain;

// The value of a signal under the assignment n of s signals.
fn value(s: usize, n: u32, signal: usize) -> bool
    requires { (s ≤ 24) × ((0 < signal) × (signal ≤ s)) }
    ensures { result ≡ numbered s n signal }
{
    (n >> (s - signal)) % 2 == 1
}

// Whether a number holds under it.
fn holds(s: usize, n: u32, x: &i32) -> bool
    requires { (s ≤ 24) × (Literal s x.now) }
    ensures { result ≡ literal (numbered s n) x.now }
{
    (*x > 0) == value(s, n, x.unsigned_abs() as usize)
}

// Whether one of the numbers holds.
fn any_holds(s: usize, n: u32, numbers: &[i32]) -> bool
    requires { (s ≤ 24) × (AllByRecursion (Literal s) numbers.now) }
    ensures { result ≡ clause (numbered s n) numbers.now }
{
    numbers.iter().any(|x| holds(s, n, x))
}

// Whether all of them do.
fn all_hold(s: usize, n: u32, numbers: &[i32]) -> bool
    requires { (s ≤ 24) × (AllByRecursion (Literal s) numbers.now) }
    ensures { result ≡ each (numbered s n) numbers.now }
{
    numbers.iter().all(|x| holds(s, n, x))
}

// Whether each record of the chain has a number that holds.
fn each_holds(n: u32, mut chain: Chain) -> bool
    requires { signals_of chain ≤ 24 }
    ensures { result ≡ all_true (numbered (signals_of chain.entry) n) (records_of chain.entry) }
{
    let s = chain.signals();
    chain.all(|record| any_holds(s, n, record))
}

// Whether the assignment n makes the records and the assumptions true.
fn meets(n: u32, chain: Chain, assumptions: &[i32]) -> bool
    requires { (signals_of chain ≤ 24) × (AllByRecursion (Literal (signals_of chain)) assumptions.now) }
    ensures { Decides result (Meets (records_of chain.entry) assumptions.now (numbered (signals_of chain.entry) n)) }
{
    all_hold(chain.signals(), n, assumptions) && each_holds(n, chain)
}

// The first assignment that does.
fn least(chain: Chain, assumptions: &[i32]) -> Option<u32>
    requires { (signals_of chain ≤ 24) × (AllByRecursion (Literal (signals_of chain)) assumptions.now) }
    ensures { Least (signals_of chain.entry) (records_of chain.entry) assumptions.now result }
{
    (0..1 << chain.signals()).find(|n| meets(*n, chain, assumptions))
}

// Writes the value of each signal under the assignment n.
fn write_values(s: usize, n: u32, out: &mut [i32])
    requires { (s ≤ 24) × (s ≤ length out.old) }
    ensures { out.new ≡ values (numbered s n) s ++ drop s out.old }
{
    for (k, word) in out[..s].iter_mut().enumerate() {
        *word = signed(k, value(s, n, k + 1));
    }
}

#[derive(Clone, Copy)]
pub struct Counting;

impl Engine for Counting {
    ghost most = { 24 };

    fn largest() -> usize {
        24
    }

    fn ask(&mut self, question: Question, out: &mut [i32]) -> Result<Answer, Refusal>
        ensures answered { Answered 24 (asked question.entry) out.old out.new result }
        ensures first { First (asked question.entry) out.old out.new result }
        ensures named { AllNamed (asked question.entry) out.old out.new result }
    {
        admit(Self::largest(), question, out.len())?;
        let s = question.signals;
        let chain = Chain::new(s, question.pool, question.used, question.head);
        match least(chain, question.assumptions) {
            Some(n) => {
                write_values(s, n, out);
                Ok(Answer::Yes)
            }
            None => {
                let c = question.assumptions.len();
                copy_front(question.assumptions, c, out);
                Ok(Answer::No(c))
            }
        }
    }
}
