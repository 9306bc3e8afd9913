// A chain as an iterator over the records that are left.
ghost use Rattle.std.specs.Iterator.{YieldsFirstRef, item_count};
ghost use Rattle.pool.specs.Chains.{records_of};

use crate::chain::Chain;

impl<'a> Iterator for Chain<'a> {
    type Item = &'a [i32];

    ghost next_gives = { YieldsFirstRef (λ c. records_of c) };

    ghost remaining = { item_count (λ c. records_of c) };

    fn next(&mut self) -> Option<&'a [i32]> {
        Chain::next(self)
    }
}
