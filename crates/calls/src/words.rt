// Words to write on.
ghost use Rattle.std.specs.Prelude.{◌≡◌, replicate, pos, IfOk, vec_len};

use std::alloc::{AllocError, Global};

// So many words, all 0.
pub(crate) fn zeros(heap: Global, count: usize) -> Result<Vec<i32>, AllocError>
    ensures { IfOk result (λ v. (v.items ≡ replicate count (pos 0)) × (vec_len v ≡ count)) }
{
    vec![in heap; 0; count]
}
