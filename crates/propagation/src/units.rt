// Records with one open number and no true one are followed, round after round, until no such record is left.
ghost use Rattle.std.specs.Prelude.{◌≡◌, ◌-◌, ◌<◌, length, slice_set, unsigned_abs};
ghost use Rattle.pool.specs.Records.{Literal};
ghost use Rattle.pool.specs.Chains.{records_of, signals_of};
ghost use Rattle.propagation.specs.Steps.{Ready, Propagated};

use crate::conflict::{explain, mark_signals};
use crate::status::{Status, place_of, weigh};
use pool::Chain;

// Makes a number true, and notes its place on the trail.
// Row and trail are no struct: each function that takes it would have to promise besides that it keeps both references.
pub fn assign(values: &mut [i32], trail: &mut [usize], top: usize, x: i32)
    requires { (Literal (length values.old) x) × (top < length trail.old) }
    ensures row { values.new ≡ slice_set values.old (unsigned_abs x - 1) x }
    ensures place { trail.new ≡ slice_set trail.old top (unsigned_abs x - 1) }
{
    let i = place_of(x);
    values[i] = x;
    trail[top] = i;
}

// Makes true what follows from the records; None where one fails, with the row as it was and what the clash rests on marked.
pub fn propagate(
    chain: Chain,
    values: &mut [i32],
    trail: &mut [usize],
    mark: usize,
    marks: &mut [bool],
) -> Option<usize>
    requires { Ready (signals_of chain) values.old trail.old mark marks.old }
    ensures { Propagated (records_of chain.entry) values.old trail.old mark values.new trail.new marks.new result }
{
    let mut top = mark;
    'rounds: loop {
        let before = top;
        let mut rest = chain;
        // No `for`: only Chain's own `next` says that the numbers name signals.
        'records: while let Some(numbers) = rest.next() {
            match weigh(values, numbers) {
                Status::Fails => {
                    marks.fill(false);
                    mark_signals(marks, numbers);
                    explain(chain, values, trail, mark, top, marks);
                    return None;
                }
                Status::Forces(x) => {
                    assign(values, trail, top, x);
                    top += 1;
                }
                Status::Holds | Status::Open => {}
            }
        }
        if top == before {
            return Some(top);
        }
    }
}
