// Whether a chain is sound, and how one of its records is read.
ghost use Rattle.std.specs.Prelude.{◌≡◌, ◌+◌, ◌<◌, ◌≤◌, length, Decides};
ghost use Rattle.std.specs.List.{AllByRecursion};
ghost use Rattle.pool.specs.Layout.{next_at, numbers_at, Lies};
ghost use Rattle.pool.specs.Records.{Literal, Whole, Sound};

// The numbers of the record at p.
pub(crate) fn numbers(pool: &[i32], p: usize) -> &[i32]
    requires { Lies pool.now p (length pool.now) }
    ensures { result.now ≡ numbers_at pool.now p }
{
    let count = pool[p + 1] as usize;
    &pool[p + 2..p + 2 + count]
}

// The index of the record that follows the one at p.
pub(crate) fn next(pool: &[i32], p: usize) -> usize
    requires { Lies pool.now p (length pool.now) }
    ensures { result ≡ next_at pool.now p }
{
    pool[p] as usize
}

// Whether each number names a signal of 1 to s, or its opposite.
pub fn are_literals(s: usize, numbers: &[i32]) -> bool
    ensures { Decides result (AllByRecursion (Literal s) numbers.now) }
{
    numbers
        .iter()
        .all(|x| *x != 0 && x.unsigned_abs() as usize <= s)
}

// Whether the record at p lies whole within the words in use.
fn is_whole(s: usize, pool: &[i32], used: usize, p: usize) -> bool
    requires { (used ≤ length pool.now) × (0 < p) }
    ensures { Decides result (Whole s pool.now used p) }
{
    let Some([next, count, rest @ ..]) = pool.get(p..used) else {
        return false;
    };
    if !usize::try_from(*next).is_ok_and(|n| n < p) {
        return false;
    }
    let Ok(count) = usize::try_from(*count) else {
        return false;
    };
    let Some(numbers) = rest.get(..count) else {
        return false;
    };
    are_literals(s, numbers)
}

// Whether the chain at head is sound for s signals.
pub(crate) fn is_sound(s: usize, pool: &[i32], used: usize, head: usize) -> bool
    ensures { Decides result (Sound s pool.now used head) }
{
    if used > pool.len() {
        return false;
    }
    let mut p = head;
    // A while loop: the next index stands in the record's own words, 0 for none.
    while p != 0 {
        if !is_whole(s, pool, used, p) {
            return false;
        }
        p = next(pool, p);
    }
    true
}
