// Which signal to branch on: the lowest open one that a record which is not yet true names.
// Where every record is true, the signals that are still open become false.
ghost use Rattle.std.specs.Prelude.{◌≡◌, ◌≤◌, length};
ghost use Rattle.std.specs.List.{AllByRecursion};
ghost use Rattle.pool.specs.Records.{Literal};
ghost use Rattle.pool.specs.Chains.{records_of, signals_of};
ghost use Rattle.propagation.specs.Steps.{Alive};
ghost use Rattle.branching.specs.Search.{Lowest, Chosen, Completed};

use engine::signed;
use pool::Chain;
use propagation::{place_of, value_of};

// The lower of `best` and the places of a record's open signals, or `best` where the record is true.
fn lowest(values: &[i32], numbers: &[i32], best: Option<usize>) -> Option<usize>
    requires { AllByRecursion (Literal (length values.now)) numbers.now }
    ensures { Lowest values.now numbers.now best result }
{
    let mut low = best;
    for x in numbers {
        let value = value_of(values, *x);
        if value == *x {
            return best;
        }
        if value == 0 {
            let place = place_of(*x);
            low = Some(low.map_or(place, |old| old.min(place)));
        }
    }
    low
}

// The place of the signal to branch on; None where every record is true.
pub(crate) fn choose(chain: Chain, values: &[i32]) -> Option<usize>
    requires { (signals_of chain ≡ length values.now) × (AllByRecursion (Alive values.now) (records_of chain)) }
    ensures { Chosen (records_of chain.entry) values.now result }
{
    let mut low = None;
    let mut rest = chain;
    // No `for`: only Chain's own `next` says that the numbers name signals.
    while let Some(numbers) = rest.next() {
        low = lowest(values, numbers, low);
    }
    low
}

// Makes each open signal false.
pub(crate) fn complete(values: &mut [i32])
    requires { length values.old ≤ 1280 }
    ensures { Completed values.old values.new }
{
    for (i, value) in values.iter_mut().enumerate() {
        if *value == 0 {
            *value = signed(i, false);
        }
    }
}
