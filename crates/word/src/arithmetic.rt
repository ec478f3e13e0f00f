// Sums, differences and products.
ghost use Rattle.std.specs.Prelude.{◌≡◌};
ghost use Rattle.word.specs.Word.{add, sub, product, product_signed};

use crate::sign::signed;

// The sum, modulo 2^32.
pub fn add(a: u32, b: u32) -> u32
    ensures { result ≡ add a b }
{
    a.wrapping_add(b)
}

// The difference, modulo 2^32.
pub fn sub(a: u32, b: u32) -> u32
    ensures { result ≡ sub a b }
{
    a.wrapping_sub(b)
}

// The 64 bits of the product.
pub fn product(a: u32, b: u32) -> u64
    ensures { result ≡ product a b }
{
    u64::from(a) * u64::from(b)
}

// The 64 bits of the product of a and b, both read as signed.
pub fn product_signed(a: u32, b: u32) -> u64
    ensures { result ≡ product_signed a b }
{
    (i64::from(signed(a)) * i64::from(signed(b))).cast_unsigned()
}
