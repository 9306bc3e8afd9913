// Why a row of values clashes with the records: which of its signals the clash rests on.
// The trail is walked back from its end. Each signal there is opened again, and where it is
// marked, the other signals of a record that forced it are marked in its place.
ghost use Rattle.std.specs.Prelude.{◌≡◌, ℕ, ◌-◌, ◌<◌, Bool, true, false, length, pos, IfSome, slice_index_or, unsigned_abs};
ghost use Rattle.std.specs.List.{AllByRecursion};
ghost use Rattle.pool.specs.Records.{Literal};
ghost use Rattle.pool.specs.Chains.{records_of, signals_of};
ghost use Rattle.engine.specs.Truth.{clause, chain as all_true};
ghost use Rattle.propagation.specs.Rows.{Blocked, back};
ghost use Rattle.propagation.specs.Steps.{Forced, Traced};

use crate::status::{Status, place_of, weigh};
use pool::Chain;

// Marks the signals of a record.
pub fn mark_signals(marks: &mut [bool], numbers: &[i32])
    requires { AllByRecursion (Literal (length marks.old)) numbers.now }
    ensures grows { (k : ℕ) → slice_index_or marks.old k false ≡ true → slice_index_or marks.new k false ≡ true }
    ensures marked { (k : ℕ) → k < length numbers.now → slice_index_or marks.new (unsigned_abs (slice_index_or numbers.now k (pos 0)) - 1) false ≡ true }
{
    for x in numbers {
        marks[place_of(*x)] = true;
    }
}

// Whether a record hangs on x alone.
fn forces(values: &[i32], numbers: &[i32], x: i32) -> bool
    requires { AllByRecursion (Literal (length values.now)) numbers.now }
    ensures { result ≡ true → Forced values.now numbers.now x }
{
    weigh(values, numbers) == Status::Forces(x)
}

// A record that hangs on x alone.
fn reason<'a>(mut chain: Chain<'a>, values: &[i32], x: i32) -> Option<&'a [i32]>
    requires { signals_of chain ≡ length values.now }
    ensures { IfSome result (λ xs. AllByRecursion (Literal (length values.now)) xs.now × Forced values.now xs.now x × ((a : ℕ → Bool) → all_true a (records_of chain.entry) ≡ true → clause a xs.now ≡ true)) }
{
    chain.find(|numbers| forces(values, numbers, x))
}

// Opens again the signals of the trail from `mark` to `top`, and leaves marks under which the rest still clashes.
pub fn explain(
    chain: Chain,
    values: &mut [i32],
    trail: &[usize],
    mark: usize,
    top: usize,
    marks: &mut [bool],
)
    requires { Traced (signals_of chain) (records_of chain) values.old trail.now mark top marks.old }
    ensures row { values.new ≡ back (top - mark) trail.now mark values.old }
    ensures blocked { Blocked (records_of chain.entry) marks.new values.new }
{
    // By place: the contract counts the places of the trail.
    for t in (mark..top).rev() {
        let i = trail[t];
        let x = values[i];
        values[i] = 0;
        if marks[i] {
            match reason(chain, values, x) {
                Some(numbers) => mark_signals(marks, numbers),
                None => marks.fill(true),
            }
        }
    }
}
