// Sets of the numbers that pass a test, as the bits of a word.
ghost use Rattle.std.specs.Prelude.{◌≡◌, ◌<◌, ◌≤◌, ℕ, Bool};
ghost use Rattle.rows.specs.Lists.{range, keep};
ghost use Rattle.vocabulary.specs.Bits.{word_size};
ghost use Rattle.vocabulary.specs.Steps.{bits_of};

use crate::bits;

// The numbers below `count` that pass a test.
pub fn set_of<F: Fn(usize) -> bool>(count: usize, test: F) -> u64
    requires word { count ≤ word_size }
    requires test { (k : ℕ) → k < count → F.pre test k }
    ensures { (p : ℕ → Bool) → ((k : ℕ) (b : Bool) → k < count → F.post test k b → b ≡ p k) → result ≡ bits_of (keep p (range 0 count)) }
{
    let mut set = 0;
    for k in 0..count {
        set |= bits::only(test(k), bits::one(k as u64));
    }
    set
}
