//! Numbers that look like chance, the same in each run.

/// Numbers by a linear congruence (Knuth's MMIX), from a seed.
#[derive(Drop)]
pub struct Numbers {
    state: u64,
}

impl Numbers {
    /// The numbers of a seed.
    pub fn new(seed: u64) -> Numbers {
        Numbers { state: seed }
    }

    /// The next number below this one, or 0 where there is none below it.
    pub fn below(&mut self, limit: u32) -> u32 {
        self.state = self
            .state
            .wrapping_mul(6364136223846793005)
            .wrapping_add(1442695040888963407);
        ((self.state >> 33) as u32).checked_rem(limit).unwrap_or(0)
    }

    /// Whether something happens that happens once in so many times.
    pub fn happens(&mut self, times: u32) -> bool {
        self.below(times) == 0
    }
}
