// Shifts and bits. A shift amount and a bit's number are taken by their low five bits.
ghost use Rattle.std.specs.Prelude.{◌≡◌, bit_and, bit_or, bit_xor};
ghost use Rattle.word.specs.Word.{shift_left, shift_right, shift_right_signed, nor, test_bit, copy_bit};

use crate::sign::{signed, unsigned};

pub fn shift_left(a: u32, n: u32) -> u32
    ensures { result ≡ shift_left a n }
{
    a.wrapping_shl(n)
}

pub fn shift_right(a: u32, n: u32) -> u32
    ensures { result ≡ shift_right a n }
{
    a.wrapping_shr(n)
}

// The shift that copies the sign.
#[tactic(auto, unfolding(crate::specs::Word::shift_right_signed))]
pub fn shift_right_signed(a: u32, n: u32) -> u32
    ensures { result ≡ shift_right_signed a n }
{
    unsigned(signed(a) >> (n % 32))
}

pub fn and(a: u32, b: u32) -> u32
    ensures { result ≡ bit_and a b }
{
    a & b
}

pub fn or(a: u32, b: u32) -> u32
    ensures { result ≡ bit_or a b }
{
    a | b
}

pub fn xor(a: u32, b: u32) -> u32
    ensures { result ≡ bit_xor a b }
{
    a ^ b
}

pub fn nor(a: u32, b: u32) -> u32
    ensures { result ≡ nor a b }
{
    !(a | b)
}

// Whether bit n of a is set.
pub fn test_bit(a: u32, n: u32) -> bool
    ensures { result ≡ test_bit a n }
{
    (a >> (n % 32)) % 2 == 1
}

// Bit n of a alone, or-ed with b in that place.
#[tactic(auto, unfolding(crate::specs::Word::copy_bit))]
pub fn copy_bit(a: u32, n: u32, b: bool) -> u32
    ensures { result ≡ copy_bit a n b }
{
    let bit = 1 << (n % 32);
    if b {
        return (a & bit) | bit;
    }
    a & bit
}
