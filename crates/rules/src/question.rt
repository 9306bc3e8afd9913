// The question of a step about the present level: what it assumes of the clauses.
ghost use Rattle.std.specs.Prelude.{◌≡◌, ℕ, ◌<◌, ◌≤◌, Bool, false, pos, neg_ℤ, slice_index_or};
ghost use Rattle.arrayvec.specs.ArrayVec.{array_vec_len};
ghost use Rattle.strategy.specs.Signals.{signal};
ghost use Rattle.strategy.specs.Records.{assumptions};
ghost use Rattle.strategy.specs.Questions.{assumed, assumed_clauses};

use arrayvec::ArrayVec;
use formula::Side;
use layout::{b_signal, t_signal};

// Whether the question assumes something of a clause, which is satisfied before the level or not.
fn is_assumed(side: Side, satisfied: bool) -> bool
    ensures { (before : ℕ → Bool) (i : ℕ) → before i ≡ satisfied → result ≡ assumed side before i }
{
    match side {
        Side::Ours => !satisfied,
        Side::Device => satisfied,
    }
}

// What it assumes of the clause: t is false at our level, b at the device's.
fn assumption(variables: usize, clauses: usize, side: Side, clause: usize) -> i32
    requires { (variables ≤ 256) × ((clauses ≤ 512) × (clause < 512)) }
    ensures { result ≡ neg_ℤ (pos (signal variables clauses side clause)) }
{
    match side {
        Side::Ours => -t_signal(variables, clause),
        Side::Device => -b_signal(variables, clauses, clause),
    }
}

// The assumptions, clauses ascending.
pub fn assumptions_of(
    variables: usize,
    clauses: usize,
    side: Side,
    satisfied: &[bool; 512],
) -> ArrayVec<i32, 512>
    requires { (variables ≤ 256) × (clauses ≤ 512) }
    ensures list { result.items ≡ assumptions variables clauses side (assumed_clauses clauses side (λ i. slice_index_or satisfied.now i false)) }
    ensures few { array_vec_len result ≤ clauses }
{
    let mut assumed = ArrayVec::new();
    // by number: an assumption names its clause
    for clause in 0..clauses {
        if !is_assumed(side, satisfied[clause]) {
            continue;
        }
        assumed.push(assumption(variables, clauses, side, clause));
    }
    assumed
}
