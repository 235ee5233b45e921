//! Pseudorandom numbers. Equal seeds give equal numbers.

ghost use Rattle.std.specs.Prelude.{◌<◌};

/// A xorshift generator (Marsaglia, Journal of Statistical Software 8, 2003). A number below a limit is computed from the upper
/// 32 bits of the next number.
#[derive(Debug, Drop)]
pub struct Numbers(u64);

impl Numbers {
    /// Returns the generator with this seed.
    pub fn new(seed: u64) -> Numbers {
        Numbers(seed.wrapping_add(1).wrapping_mul(0x9e37_79b9_7f4a_7c15) | 1)
    }

    /// Returns the next number.
    #[inline(always)]
    pub fn next(&mut self) -> u64 {
        self.0 ^= self.0 << 13;
        self.0 ^= self.0 >> 7;
        self.0 ^= self.0 << 17;
        self.0
    }

    /// Returns a number below `n`, computed from the next number.
    #[inline(always)]
    pub fn below(&mut self, n: u32) -> u32
        requires { 0 < n }
        ensures { result < n }
    {
        let high = self.next() >> 32;
        let number = (high.wrapping_mul(u64::from(n)) >> 32) as u32;
        number.min(n - 1)
    }
}
