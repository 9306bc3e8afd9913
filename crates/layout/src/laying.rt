// Records written where there is known to be room for them.
ghost use Rattle.std.specs.Prelude.{◌≡◌, length};
ghost use Rattle.pool.specs.Append.{Room};
ghost use Rattle.layout.specs.Laying.{lay as lays};
ghost use Rattle.layout.specs.Places.{laid_as};

use pool::{Place, append};

// One record more in front of a chain.
pub fn lay(pool: &mut [i32], place: Place, numbers: &[i32]) -> Place
    requires { Room (length pool.old) place.used place.head (length numbers.now) }
    ensures { laid_as pool.new result ≡ lays (laid_as pool.old place) numbers.now }
{
    let Some(after) = append(pool, place.used, place.head, numbers) else {
        unreachable()
    };
    after
}
