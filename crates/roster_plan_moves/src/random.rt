//! Numbers that look random, the same in each run.

ghost use Rattle.std.specs.Prelude.{◌<◌};

/// The generator that is known as SplitMix64.
#[derive(Drop)]
pub(crate) struct Random {
    state: u64,
}

impl Random {
    /// The numbers of a seed.
    pub(crate) fn new(seed: u64) -> Random {
        Random { state: seed }
    }

    /// The next number.
    pub(crate) fn next(&mut self) -> u64 {
        self.state = self.state.wrapping_add(0x9e37_79b9_7f4a_7c15);
        let mut z = self.state;
        z = (z ^ (z >> 30)).wrapping_mul(0xbf58_476d_1ce4_e5b9);
        z = (z ^ (z >> 27)).wrapping_mul(0x94d0_49bb_1331_11eb);
        z ^ (z >> 31)
    }

    /// A number below `count`, or 0 if that is 0.
    pub(crate) fn below(&mut self, count: usize) -> usize
        ensures { 0 < count → result < count }
    {
        let number = self.next();
        if count == 0 {
            return 0;
        }
        (number % count as u64) as usize
    }

    /// A number of which large ones are rare: half of all are at least 1, a quarter at least 2, and so
    /// on, in parts of 2^16.
    pub(crate) fn waiting(&mut self) -> i64 {
        let number = self.next();
        let whole = i64::from(number.leading_zeros());
        let part = (number & 0xffff) as i64;
        whole * 65_536 + part
    }
}
