//! Numbers in no order, each from the one before it, the same in each run.

ghost use Rattle.std.specs.Prelude.{◌<◌};

/// A row of numbers in no order, by the last one.
#[derive(Drop)]
pub struct Numbers {
    /// The last one.
    pub last: u64,
}

impl Numbers {
    /// The next number, below a bound.
    pub fn below(&mut self, bound: u32) -> u32
        requires { 0 < bound }
        ensures { result < bound }
    {
        self.last = self
            .last
            .wrapping_mul(6_364_136_223_846_793_005)
            .wrapping_add(1);
        ((self.last >> 33) % u64::from(bound)) as u32
    }
}
