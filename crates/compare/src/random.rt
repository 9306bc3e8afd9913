// Pseudo-random numbers that are the same in each run.

#[derive(Clone, Copy)]
pub struct Random {
    state: u64,
}

impl Random {
    pub(crate) fn new(seed: u64) -> Random {
        Random { state: seed }
    }

    // A number below `bound`, or 0 where that is 0.
    pub(crate) fn below(&mut self, bound: u8) -> u8 {
        self.state = self
            .state
            .wrapping_mul(6364136223846793005)
            .wrapping_add(1442695040888963407);
        let bytes = self.state.to_be_bytes();
        bytes[0].checked_rem(bound).unwrap_or(0)
    }
}
