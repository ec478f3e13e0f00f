// Looking a block up: what 13 describes, whether it is held, and which blocks make room for it.
ghost use Rattle.std.specs.Prelude.{◌≡◌, ◌≤◌, length, drop};
ghost use Rattle.method_cache.specs.MethodCache.{size_at, bad_base, bad_size, bad_block, is_held, bytes_held, room_for, held_good, held_ok};
ghost use Rattle.method_cache.specs.Words.{held_in, looked_words, looked_count};

use crate::words::{held_base, held_count, settle};
use crate::{Looked, Method};
use big_endian::read_word;

// The byte size of the block at a base, which stands in the word before it.
fn size_at(code: &[u8], base: u32) -> u32
    ensures { result ≡ size_at code.now base }
{
    if base < 4 {
        return read_word(code, 0);
    }
    read_word(code, base - 4)
}

fn bad_base(length: usize, base: u32) -> bool
    ensures { result ≡ bad_base length base }
{
    (base < 4) | ((length < base as usize) | (base % 4 != 0))
}

fn bad_size(length: usize, base: u32, size: u32, bytes: u32) -> bool
    ensures { result ≡ bad_size length base size bytes }
{
    ((size == 0) | (size % 4 != 0)) | ((length < base as usize + size as usize) | (bytes < size))
}

// Whether 13 describes a lookup by this base.
pub fn is_bad(method: Method, code: &[u8], base: u32) -> bool
    ensures { result ≡ bad_block method code.now base }
{
    let size = size_at(code, base);
    bad_base(code.len(), base) | bad_size(code.len(), base, size, method.bytes)
}

// Whether a block is among those held from a place on.
fn is_held(held: &[u32; 17], from: u32, base: u32) -> bool
    ensures { (result ≡ is_held base (drop from (held_in held.now))) × (length held.now ≡ 17) }
{
    let n = held_count(held);
    for i in from..n {
        if base == held_base(held, i) {
            return true;
        }
    }
    false
}

// The bytes of all blocks held.
fn bytes_held(code: &[u8], held: &[u32; 17]) -> u64
    ensures { (result ≡ bytes_held code.now (held_in held.now)) × (result ≤ 68719476720) }
{
    let n = held_count(held);
    let mut sum: u64 = 0;
    for i in 0..n {
        let size = size_at(code, held_base(held, i));
        sum += size as u64;
    }
    sum
}

// How many of the oldest blocks go to make room for one of this size.
fn evicted(method: Method, code: &[u8], held: &[u32; 17], size: u32) -> u32
    ensures { (room_for method code.now size (held_in held.now) ≡ drop result (held_in held.now)) × (result ≤ length (held_in held.now)) }
{
    let n = held_count(held);
    let mut bytes = bytes_held(code, held);
    for k in 0..n {
        if (n - k + 1 <= method.blocks) & (bytes + (size as u64) <= method.bytes as u64) {
            return k;
        }
        let gone = size_at(code, held_base(held, k));
        bytes -= gone as u64;
    }
    n
}

// Whether no block held is one that 13 describes, or held again behind it.
fn all_good(method: Method, code: &[u8], held: &[u32; 17]) -> bool
    ensures { result ≡ held_good method code.now (held_in held.now) }
{
    let n = held_count(held);
    for i in 0..n {
        let base = held_base(held, i);
        if is_bad(method, code, base) | is_held(held, i + 1, base) {
            return false;
        }
    }
    true
}

// Whether 11 lets the blocks held pass.
pub fn held_ok(method: Method, code: &[u8], held: &[u32; 17]) -> bool
    ensures { result ≡ held_ok method code.now (held_in held.now) }
{
    let n = held_count(held);
    if !method.on {
        return n == 0;
    }
    let bytes = bytes_held(code, held);
    all_good(method, code, held) & ((n <= method.blocks) & (bytes <= method.bytes as u64))
}

// A block looked up by its base: where it is not held, the oldest go until there is room, and it becomes the youngest.
pub fn look_up(method: Method, code: &[u8], held: &mut [u32; 17], base: u32) -> Looked
    ensures { (held.new ≡ looked_words method code.now held.old base) × (result ≡ looked_count code.now (held_in held.old) base) × (length held.old ≡ 17) }
{
    if is_held(&*held, 0, base) {
        return Looked {
            misses: 0,
            fetched: 0,
        };
    }
    let size = size_at(code, base);
    let k = evicted(method, code, &*held, size);
    settle(&mut *held, k, true, base);
    Looked {
        misses: 1,
        fetched: size / 4,
    }
}
