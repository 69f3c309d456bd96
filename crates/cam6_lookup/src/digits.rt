//! The four binary digits of a number below sixteen, and the positions of a word that have them.
ghost use Rattle.std.specs.Prelude.{◌≡◌, ◌<◌, ◌≤◌, ◌-◌, ◌+◌, ℕ};
ghost use Rattle.std.specs.Int.{bit_at};
ghost use Rattle.cam6_lookup.specs.Transposed.{worth, digit_of};

/// A binary digit, by what it is worth.
#[derive(Clone, Copy, Debug, PartialEq, Eq)]
pub(crate) enum Digit {
    One,
    Two,
    Four,
    Eight,
}

impl Digit {
    /// Returns the value of this binary digit: 1, 2, 4 or 8.
    #[inline(always)]
    pub(crate) fn worth(self) -> usize
        ensures value { result ≡ worth self }
        ensures some { 0 < result }
        ensures most { result ≤ 8 }
    {
        match self {
            Digit::One => 1,
            Digit::Two => 2,
            Digit::Four => 4,
            Digit::Eight => 8,
        }
    }

    /// Returns a word with 1 at each position whose number has 0 as this binary digit. Position 0
    /// is the lowest bit.
    #[inline(always)]
    fn zeros(self) -> u64
        ensures { (p : ℕ) → p < 64 → bit_at result p ≡ 1 - digit_of self p }
    {
        match self {
            Digit::One => 0x5555_5555_5555_5555,
            Digit::Two => 0x3333_3333_3333_3333,
            Digit::Four => 0x0F0F_0F0F_0F0F_0F0F,
            Digit::Eight => 0x00FF_00FF_00FF_00FF,
        }
    }

    /// Returns a word with 1 at each position whose number has 1 as this binary digit. Position 0
    /// is the lowest bit.
    #[inline(always)]
    fn ones(self) -> u64
        ensures { (p : ℕ) → p < 64 → bit_at result p ≡ digit_of self p }
    {
        match self {
            Digit::One => 0xAAAA_AAAA_AAAA_AAAA,
            Digit::Two => 0xCCCC_CCCC_CCCC_CCCC,
            Digit::Four => 0xF0F0_F0F0_F0F0_F0F0,
            Digit::Eight => 0xFF00_FF00_FF00_FF00,
        }
    }

    /// Returns the first of two words after a swap at this digit. At positions with the digit 0 it
    /// keeps its bits. At the others it gets the second word's bits from `worth` positions below.
    /// Position 0 is the lowest bit.
    #[inline(always)]
    pub(crate) fn first(self, first: u64, second: u64) -> u64
        ensures kept { (p : ℕ) → p < 64 → digit_of self p ≡ 0 → bit_at result p ≡ bit_at first p }
        ensures taken { (p : ℕ) → p < 64 → digit_of self p ≡ 1 →
            bit_at result p ≡ bit_at second (p - worth self) }
    {
        let zeros = self.zeros();
        first & zeros | (second & zeros) << self.worth()
    }

    /// Returns the second of two words after a swap at this digit. At positions with the digit 1 it
    /// keeps its bits. At the others it gets the first word's bits from `worth` positions above.
    /// Position 0 is the lowest bit.
    #[inline(always)]
    pub(crate) fn second(self, first: u64, second: u64) -> u64
        ensures taken { (p : ℕ) → p < 64 → digit_of self p ≡ 0 →
            bit_at result p ≡ bit_at first (p + worth self) }
        ensures kept { (p : ℕ) → p < 64 → digit_of self p ≡ 1 → bit_at result p ≡ bit_at second p }
    {
        first >> self.worth() & self.zeros() | second & self.ones()
    }
}
