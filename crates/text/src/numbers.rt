// Numbers in a case file.
ghost use Rattle.std.specs.Prelude.{◌≡◌, ◌≤◌};
ghost use Rattle.text.specs.Number.{number_from, decimal_of, word_of};

// The number that the digits of a field make.
fn digits(s: &[u8], base: u32) -> Option<u32>
    requires { (2 ≤ base) × (base ≤ 16) }
    ensures { result ≡ number_from base 0 s.now }
{
    let mut v: u32 = 0;
    for c in s {
        let d = char::from(*c).to_digit(base)?;
        v = v.checked_mul(base)?.checked_add(d)?;
    }
    Some(v)
}

// A field read as a decimal number.
pub fn decimal(s: &[u8]) -> Option<u32>
    ensures { result ≡ decimal_of s.now }
{
    if s.is_empty() {
        return None;
    }
    digits(s, 10)
}

// A field read as a word.
pub fn word(s: &[u8]) -> Option<u32>
    ensures { result ≡ word_of s.now }
{
    if s.len() != 8 {
        return None;
    }
    digits(s, 16)
}
