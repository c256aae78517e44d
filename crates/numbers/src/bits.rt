// One bit of a word.
ghost use Rattle.std.specs.Prelude.{◌≡◌};
ghost use Rattle.numbers.specs.Bits.{bit, with_bit};

// Whether bit k of the word is 1; a word of 32 bits has no bit 32.
pub fn is_set(word: u32, k: u32) -> bool
    ensures { result ≡ bit word k }
{
    if 32 <= k {
        return false;
    }
    (word >> k) & 1 == 1
}

// The word with bit k set; the same word where there is no bit k.
pub fn set(word: u32, k: u32) -> u32
    ensures { result ≡ with_bit word k }
{
    if 32 <= k {
        return word;
    }
    word | (1u32 << k)
}
