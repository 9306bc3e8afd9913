// The search: propagate, choose a signal, try it false and then true.
// Where the first try fails for a reason that has nothing to do with the signal, the second is left out.
ghost use Rattle.std.specs.Prelude.{◌≡◌, ℕ, ◌-◌, ◌<◌, ◌≤◌, true, false, length, pos, MatchBool, slice_index_or, slice_set};
ghost use Rattle.pool.specs.Chains.{records_of, signals_of};
ghost use Rattle.propagation.specs.Rows.{back, Blocked};
ghost use Rattle.branching.specs.Search.{sign};
ghost use Rattle.propagation.specs.Steps.{Ready, Traced, Stuck};
ghost use Rattle.branching.specs.Search.{Met};

use crate::choose::{choose, complete};
use engine::{MAX_SIGNALS, signed};
use pool::Chain;
use propagation::{assign, explain, propagate};

// Adds the marks of `others`.
fn join(marks: &mut [bool], others: &[bool])
    requires { length marks.old ≤ length others.now }
    ensures first { (k : ℕ) → slice_index_or marks.old k false ≡ true → slice_index_or marks.new k false ≡ true }
    ensures second { (k : ℕ) → k < length marks.old → slice_index_or others.now k false ≡ true → slice_index_or marks.new k false ≡ true }
{
    for (k, mark) in marks.iter_mut().enumerate() {
        *mark |= others[k];
    }
}

// Gives the signal after i a value, and notes its place on the trail.
fn decide(values: &mut [i32], trail: &mut [usize], top: usize, i: usize, value: bool)
    requires { (i < length values.old) × ((length values.old ≤ 1280) × (top < length trail.old)) }
    ensures row { values.new ≡ slice_set values.old i (sign value i) }
    ensures place { trail.new ≡ slice_set trail.old top i }
{
    assign(values, trail, top, signed(i, value));
}

// Opens the signal after i and those of the trail from `mark` to `top`, with what the clash rests on marked.
fn retreat(
    chain: Chain,
    values: &mut [i32],
    trail: &[usize],
    mark: usize,
    top: usize,
    i: usize,
    marks: &mut [bool],
)
    requires { (i < length values.old) × (Traced (signals_of chain) (records_of chain) (slice_set values.old i (pos 0)) trail.now mark top marks.old) }
    ensures row { values.new ≡ back (top - mark) trail.now mark (slice_set values.old i (pos 0)) }
    ensures blocked { Blocked (records_of chain.entry) marks.new values.new }
{
    values[i] = 0;
    explain(chain, values, trail, mark, top, marks);
}

// Whether the open signals can be given values that make the records true.
// If not, they are open as before, and the signals that this rests on are marked.
pub(crate) fn search(
    chain: Chain,
    values: &mut [i32],
    trail: &mut [usize],
    mark: usize,
    marks: &mut [bool],
) -> bool
    requires { (Ready (signals_of chain) values.old trail.old mark marks.old) × ((length values.old ≤ 1280) × (length marks.old ≤ 1280)) }
    ensures { MatchBool result (Met (records_of chain.entry) values.old values.new) (Stuck (records_of chain.entry) values.old trail.old mark values.new trail.new marks.new) }
{
    let Some(top) = propagate(chain, values, trail, mark, marks) else {
        return false;
    };
    let Some(i) = choose(chain, values) else {
        complete(values);
        return true;
    };
    decide(values, trail, top, i, false);
    if search(chain, values, trail, top + 1, marks) {
        return true;
    }
    if !marks[i] {
        retreat(chain, values, trail, mark, top, i, marks);
        return false;
    }
    decide(values, trail, top, i, true);
    let mut others = [false; MAX_SIGNALS];
    if search(chain, values, trail, top + 1, &mut others) {
        return true;
    }
    join(marks, &others);
    retreat(chain, values, trail, mark, top, i, marks);
    false
}
