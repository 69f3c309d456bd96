//! The 64 columns of a word: chosen one by one, or all the same.
ghost use Rattle.std.specs.Prelude.{◌≡◌, ◌<◌, ℕ, if◌then◌else◌};
ghost use Rattle.cam6_planes.specs.Row.{word_column};

/// Returns the bits of `set` in the columns where `mask` has 1, and those of `unset` in the others.
#[inline]
pub fn chosen_word(mask: u64, unset: u64, set: u64) -> u64
    ensures { (c : ℕ) → c < 64 → word_column result c
        ≡ (if word_column mask c then word_column set c else word_column unset c) }
{
    mask & set | !mask & unset
}

/// Returns the word that has this bit in all its 64 columns.
#[inline]
pub fn word_of(bit: bool) -> u64
    ensures { (c : ℕ) → c < 64 → word_column result c ≡ bit }
{
    if bit { u64::MAX } else { 0 }
}
