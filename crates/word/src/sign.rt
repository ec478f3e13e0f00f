// Words read as signed numbers, and back.
ghost use Rattle.std.specs.Prelude.{◌≡◌, suc, ◌+◌, ◌-◌, ◌%◌, ◌^◌, ◌<◌, ◌≤◌, pos, negsuc, if◌then◌else◌, nat_lt};
ghost use Rattle.std.specs.Int.{w32};
ghost use Rattle.std.proofs.Common.{of_z};
ghost use Rattle.word.specs.Word.{signed, less_signed, less_equal_signed, sign_extend};

// n read in two's complement, where `half` is the weight of the sign's bit. (`!k` is -1 - k.)
fn reading(n: u32, half: u32) -> i32
    requires { (n < half + half) × (half ≤ 2 ^ 31) }
    ensures { result ≡ (if nat_lt n half then pos n else negsuc (half + half - suc n)) }
{
    if n < half {
        return n as i32;
    }
    !((half - 1 - (n - half)) as i32)
}

// A word as the number that it is in two's complement.
#[tactic(auto, using(crate::proofs::Signs::reread, crate::proofs::Signs::signed_cast))]
pub fn signed(a: u32) -> i32
    ensures { result ≡ signed 32 a }
{
    a.cast_signed()
}

// The word that is the number z in two's complement.
pub fn unsigned(z: i32) -> u32
    ensures { result ≡ of_z w32 z }
{
    z.cast_unsigned()
}

// The low 22 bits of n, read as signed: the field of a branch.
#[tactic(auto, unfolding(crate::specs::Word::signed))]
pub fn signed_field_22(n: u32) -> i32
    ensures { result ≡ signed 22 (n % 2 ^ 22) }
{
    reading(n % 4194304, 2097152)
}

// a < b, both read as signed.
#[tactic(auto, unfolding(crate::specs::Word::less_signed))]
pub fn less_signed(a: u32, b: u32) -> bool
    ensures { result ≡ less_signed a b }
{
    signed(a) < signed(b)
}

// a <= b, both read as signed.
#[tactic(auto, unfolding(crate::specs::Word::less_equal_signed))]
pub fn less_equal_signed(a: u32, b: u32) -> bool
    ensures { result ≡ less_equal_signed a b }
{
    signed(a) <= signed(b)
}

// The low BITS bits of n, extended to a word by their sign. No bits are 0, and of 32 or more the word is what it was.
#[tactic(auto, using(crate::proofs::Signs::extend_none, crate::proofs::Signs::extend_all, crate::proofs::Signs::half_of, crate::proofs::Signs::half_fits, crate::proofs::Signs::reread, crate::proofs::Signs::halves), unfolding(crate::specs::Word::signed, crate::specs::Word::sign_extend))]
pub fn sign_extend<const BITS: u32>(n: u32) -> u32
    ensures { result ≡ sign_extend BITS n }
{
    if BITS == 0 {
        return 0;
    }
    if 32 <= BITS {
        return n;
    }
    let half = 1 << (BITS - 1);
    unsigned(reading(n % (half + half), half))
}
