// How many words a record takes besides its numbers.
ghost use Rattle.std.specs.Prelude.{◌≡◌};
ghost use Rattle.pool.specs.Layout.{size_for};

pub fn head_words() -> usize
    ensures { result ≡ size_for 0 }
{
    2
}
