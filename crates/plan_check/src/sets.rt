// Sets of clauses, as flags by their places: clause 1 is at place 0.
ghost use Rattle.std.specs.Prelude.{◌≡◌, ℕ, ◌<◌, ◌≤◌, true, false, if◌then◌else◌, Decides, slice_index_or};
ghost use Rattle.formula.specs.Lists.{elem};
ghost use Rattle.plan.specs.Fitting.{set_of};
ghost use Rattle.plan.specs.Naming.{Behind};

use plan::place;

// Puts a value at each clause that the numbers name; the signals of the clauses come behind `base`.
pub(crate) fn mark(base: usize, numbers: &[i32], value: bool, flags: &mut [bool; 512])
    requires { (base ≤ 768) × (Behind base numbers.now) }
    ensures { (i : ℕ) → slice_index_or flags.new i false ≡ (if elem i (set_of base numbers.now) then value else slice_index_or flags.old i false) }
{
    for x in numbers {
        flags[place(base, *x)] = value;
    }
}

// Whether each of the first so many clauses is flagged.
pub(crate) fn is_full(clauses: usize, flags: &[bool; 512]) -> bool
    requires { clauses ≤ 512 }
    ensures { Decides result ((i : ℕ) → i < clauses → slice_index_or flags.now i false ≡ true) }
{
    flags[..clauses].iter().all(|flag| *flag)
}

// Whether each of the first so many clauses that are marked is outside of the set.
pub(crate) fn is_apart(clauses: usize, outside: &[bool; 512], marked: &[bool; 512]) -> bool
    requires { clauses ≤ 512 }
    ensures { Decides result ((i : ℕ) → i < clauses → slice_index_or outside.now i false ≡ false → slice_index_or marked.now i false ≡ false) }
{
    outside[..clauses]
        .iter()
        .zip(&marked[..clauses])
        .all(|(outside, marked)| *outside || !*marked)
}
