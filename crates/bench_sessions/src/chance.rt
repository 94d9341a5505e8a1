//! Numbers without a pattern, the same at each run.

/// A linear congruential generator of 64 bits (Knuth).
#[derive(Clone, Copy)]
pub(crate) struct Chance {
    state: u64,
}

impl Chance {
    pub(crate) fn new(seed: u32) -> Chance {
        let mut chance = Chance {
            state: u64::from(seed).wrapping_mul(0x9e37_79b9_7f4a_7c15),
        };
        chance.next();
        chance
    }

    /// Other numbers for each part of what is made of one seed.
    pub(crate) fn part(self, number: u32) -> Chance {
        let mut chance = Chance {
            state: self.state ^ u64::from(number).wrapping_mul(0xd134_2543_de82_ef95),
        };
        chance.next();
        chance.next();
        chance
    }

    pub(crate) fn next(&mut self) -> u32 {
        self.state = self
            .state
            .wrapping_mul(6_364_136_223_846_793_005)
            .wrapping_add(1_442_695_040_888_963_407);
        (self.state >> 33) as u32
    }

    /// A number from 0 on, below a limit that is not 0.
    pub(crate) fn below(&mut self, limit: u32) -> u32 {
        self.next() % limit.max(1)
    }
}
