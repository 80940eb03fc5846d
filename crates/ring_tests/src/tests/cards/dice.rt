//! Random numbers for tests.
ghost use Rattle.std.specs.Prelude.{◌<◌};

/// A linear congruential generator modulo 2^64, whose upper bits are drawn. A seed draws the same numbers each time.
#[derive(Drop)]
pub(super) struct Dice {
    state: u64,
}

impl Dice {
    pub(super) fn new(seed: u64) -> Dice {
        Dice { state: seed }
    }

    /// A number below a limit.
    pub(super) fn below(&mut self, limit: u64) -> u64
        requires { 0 < limit }
        ensures { result < limit }
    {
        self.state = self
            .state
            .wrapping_mul(6364136223846793005)
            .wrapping_add(1442695040888963407);
        (self.state >> 33) % limit
    }

    /// A sample of 16 bits.
    pub(super) fn sample(&mut self) -> i16 {
        (self.below(65536) as i32 - 32768) as i16
    }
}
