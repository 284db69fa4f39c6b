//! 1,024 bits, of which the first that is 0 is found in a few steps.
ghost use Rattle.std.specs.Prelude.{◌≡◌, ◌≢◌, ℕ, ◌<◌, IfSome, IfNone};
ghost use Rattle.bep_session.specs.Ids.{bit, is_one};

/// How many bits there are.
pub(crate) const BITS: usize = 1_024;

pub(crate) type Bits = [u64; 16];

/// The first bit that is 0. O(1): at most 16 words are looked at.
pub(crate) fn first_zero(words: &Bits) -> Option<usize>
    ensures within { IfSome result (λ k. k < BITS) }
    ensures zero { IfSome result (λ k. bit words.now k ≡ 0) }
    ensures first { IfSome result (λ k. (j : ℕ) → j < k → bit words.now j ≡ 1) }
    ensures none { IfNone result ((j : ℕ) → j < BITS → bit words.now j ≡ 1) }
{
    for (i, word) in words.iter().enumerate() {
        if *word != u64::MAX {
            return Some(i * 64 + word.trailing_ones() as usize);
        }
    }
    None
}

/// Whether a bit is 1.
pub(crate) fn is_set(words: &Bits, k: usize) -> bool
    requires { k < BITS }
    ensures { result ≡ is_one (bit words.now k) }
{
    (words[k / 64] >> (k % 64)) % 2 == 1
}

/// Makes a bit 1.
pub(crate) fn set(words: &mut Bits, k: usize)
    requires { k < BITS }
    ensures here { bit words.new k ≡ 1 }
    ensures others { (j : ℕ) → j < BITS → j ≢ k → bit words.new j ≡ bit words.old j }
{
    words[k / 64] |= 1 << (k % 64);
}

/// Makes a bit 0.
pub(crate) fn clear(words: &mut Bits, k: usize)
    requires { k < BITS }
    ensures here { bit words.new k ≡ 0 }
    ensures others { (j : ℕ) → j < BITS → j ≢ k → bit words.new j ≡ bit words.old j }
{
    words[k / 64] &= !(1 << (k % 64));
}
