//! Numbers as by chance, which are the same in each run.

/// A number after another, by Marsaglia's xorshift of 64 bits.
#[derive(Clone, Copy)]
pub struct Dice {
    state: u64,
}

impl Dice {
    /// The numbers of a seed.
    pub fn new(seed: u64) -> Dice {
        Dice { state: seed | 1 }
    }

    fn next(&mut self) -> u64 {
        let mut state = self.state;
        state ^= state << 13;
        state ^= state >> 7;
        state ^= state << 17;
        self.state = state;
        state
    }

    /// A number below this one; 0 where that is 0.
    pub fn below(&mut self, count: u64) -> u64 {
        self.next() % count.max(1)
    }

    /// Whether one case of so many has come.
    pub fn is_one_of(&mut self, count: u64) -> bool {
        self.below(count) == 0
    }
}
