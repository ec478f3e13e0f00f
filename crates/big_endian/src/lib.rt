// Numbers in bytes, most significant byte first. Bytes past the end read as 0, and are not written.
// Each has a short way for a number that lies within the bytes, which is compiled to one load or store, and goes byte by byte at their end.
#![tactic(auto)]

ghost use Rattle.std.specs.Prelude.{◌≡◌, ◌%◌, ◌≤◌, get_or, set};
ghost use Rattle.big_endian.specs.Bytes.{word_at, put_word, number_at, put_number};

// The byte at i, or 0.
fn byte(s: &[u8], i: usize) -> u8
    ensures { result ≡ get_or s.now i 0 }
{
    if i < s.len() {
        return s[i];
    }
    0
}

// The low 8 bits of v are put at i, if there is a byte.
fn put(s: &mut [u8], i: usize, v: u32)
    ensures { s.new ≡ set s.old i (v % 256) }
{
    if i < s.len() {
        s[i] = (v % 256) as u8;
    }
}

// The number in the N bytes from an address on.
#[tactic(auto, using(std::proofs::Common::refl, std::proofs::Common::arith, crate::specs::BytesLaws::number_small, crate::specs::BytesLaws::number_next, std::proofs::Common::ap), unfolding(crate::specs::Bytes::number_at))]
fn read<const N: usize>(s: &[u8], at: u32) -> u32
    requires { N ≤ 4 }
    ensures { result ≡ number_at N s.now at }
{
    let i = at as usize;
    let mut v = 0;
    if i + N <= s.len() {
        for k in 0..N {
            v = v * 256 + (s[i + k] as u32);
        }
        return v;
    }
    for k in 0..N {
        v = v * 256 + (byte(s, i + k) as u32);
    }
    v
}

// The low 8 N bits of v, put in the N bytes from an address on.
#[tactic(auto, using(crate::specs::BytesLaws::put_last, std::proofs::Common::sym, crate::specs::BytesLaws::put_none, std::proofs::Common::ap, crate::specs::Bytes::put_number))]
fn write<const N: usize>(s: &mut [u8], at: u32, v: u32)
    requires { N ≤ 4 }
    ensures { s.new ≡ put_number N s.old at v }
{
    let i = at as usize;
    let mut rest = v;
    if i + N <= s.len() {
        for k in (0..N).rev() {
            s[i + k] = (rest % 256) as u8;
            rest /= 256;
        }
        return;
    }
    for k in (0..N).rev() {
        put(&mut *s, i + k, rest);
        rest /= 256;
    }
}

pub fn read_byte(s: &[u8], at: u32) -> u32
    ensures { result ≡ number_at 1 s.now at }
{
    read::<1>(s, at)
}

pub fn read_half(s: &[u8], at: u32) -> u32
    ensures { result ≡ number_at 2 s.now at }
{
    read::<2>(s, at)
}

pub fn read_word(s: &[u8], at: u32) -> u32
    ensures { result ≡ word_at s.now at }
{
    read::<4>(s, at)
}

pub fn write_byte(s: &mut [u8], at: u32, v: u32)
    ensures { s.new ≡ put_number 1 s.old at v }
{
    write::<1>(&mut *s, at, v);
}

pub fn write_half(s: &mut [u8], at: u32, v: u32)
    ensures { s.new ≡ put_number 2 s.old at v }
{
    write::<2>(&mut *s, at, v);
}

pub fn write_word(s: &mut [u8], at: u32, v: u32)
    ensures { s.new ≡ put_word s.old at v }
{
    write::<4>(&mut *s, at, v);
}
