// Words that an engine or a layer writes to its caller's slice.
ghost use Rattle.std.specs.Prelude.{◌≡◌, suc, ◌<◌, ◌≤◌, ◌++◌, length, take, drop, cond, pos, negsuc};

// Copies the first n words. Internal: for engines and layers, which know that both slices are long enough.
pub fn copy_front(from: &[i32], n: usize, to: &mut [i32])
    requires { (n ≤ length from.now) × (n ≤ length to.old) }
    ensures { to.new ≡ take n from.now ++ drop n to.old }
{
    to[..n].copy_from_slice(&from[..n]);
}

// The number of the signal after k, or the opposite. Internal: for engines, whose signals are few.
pub fn signed(k: usize, value: bool) -> i32
    requires { k < 1280 }
    ensures { result ≡ cond value (pos (suc k)) (negsuc k) }
{
    let signal = k as i32 + 1;
    if value { signal } else { -signal }
}
