// Accesses to the cache's words. The word at address a sits at place a / 4 modulo the number of words; where there are none,
// 0 is read and nothing is written.
ghost use Rattle.std.specs.Prelude.{◌≡◌, ◌+◌, ◌-◌, ◌*◌, ◌/◌, ◌%◌, ◌^◌, ◌<◌};
ghost use Rattle.stack_cache.specs.Stack.{unit, cache_word, put_cache_word, cache_number, put_cache_number};

// The cache's word for an address.
#[tactic(auto, unfolding(crate::specs::Stack::cache_word))]
pub fn cache_word(cache: &[u32], address: u32) -> u32
    ensures { result ≡ cache_word cache.now address }
{
    if cache.len() == 0 {
        return 0;
    }
    let place = (address / 4) as usize % cache.len();
    cache[place]
}

// v becomes the cache's word for an address.
#[tactic(auto, unfolding(crate::specs::Stack::put_cache_word))]
pub fn put_cache_word(cache: &mut [u32], address: u32, v: u32)
    ensures { cache.new ≡ put_cache_word cache.old address v }
{
    if cache.len() == 0 {
        return;
    }
    let place = (address / 4) as usize % cache.len();
    cache[place] = v;
}

// How many bits of the word lie below the BYTES bytes from an address on: none where these reach past it.
#[tactic(auto, using(crate::specs::StackLaws::shift_unit, std::proofs::Common::arith))]
fn bits_below<const BYTES: u32>(address: u32) -> u32
    requires { (0 < BYTES) × (BYTES < 4) }
    ensures { (2 ^ result ≡ unit BYTES address) × (result < 32) }
{
    (4 - BYTES).saturating_sub(address % 4) * 8
}

// The digit of w, in base `size`, that lies above `shift` bits.
fn part(w: u32, shift: u32, size: u32) -> u32
    requires { (shift < 32) × (0 < size) }
    ensures { result ≡ w / 2 ^ shift % size }
{
    (w >> shift) % size
}

// w with that digit replaced by the last of v.
fn with_part(w: u32, shift: u32, size: u32, v: u32) -> u32
    requires { (shift < 32) × (0 < size) × (w - w / 2 ^ shift % size * 2 ^ shift + v % size * 2 ^ shift < 2 ^ 32) }
    ensures { result ≡ w - w / 2 ^ shift % size * 2 ^ shift + v % size * 2 ^ shift }
{
    w - (part(w, shift, size) << shift) + (v % size << shift)
}

// A part of less than a word read, and replaced.
#[tactic(auto, using(crate::specs::StackLaws::size_of, std::proofs::Common::arith), unfolding(crate::specs::Stack::cache_number, crate::specs::Stack::part_of))]
fn load_part<const BYTES: u32>(cache: &[u32], address: u32) -> u32
    requires { (0 < BYTES) × (BYTES < 4) }
    ensures { result ≡ cache_number BYTES cache.now address }
{
    part(
        cache_word(cache, address),
        bits_below::<BYTES>(address),
        1 << (8 * BYTES),
    )
}

#[tactic(auto, using(crate::specs::StackLaws::size_of, std::proofs::Common::arith, crate::specs::StackLaws::put_part_word), unfolding(crate::specs::Stack::part_of, crate::specs::Stack::put_part, crate::specs::Stack::put_cache_number))]
fn store_part<const BYTES: u32>(cache: &mut [u32], address: u32, v: u32)
    requires { (0 < BYTES) × (BYTES < 4) }
    ensures { cache.new ≡ put_cache_number BYTES cache.old address v }
{
    let w = with_part(
        cache_word(&*cache, address),
        bits_below::<BYTES>(address),
        1 << (8 * BYTES),
        v,
    );
    put_cache_word(&mut *cache, address, w);
}

#[tactic(auto, using(crate::specs::StackLaws::part_4), unfolding(crate::specs::Stack::cache_number))]
pub fn load_word(cache: &[u32], address: u32) -> u32
    ensures { result ≡ cache_number 4 cache.now address }
{
    cache_word(cache, address)
}

pub fn load_half(cache: &[u32], address: u32) -> u32
    ensures { result ≡ cache_number 2 cache.now address }
{
    load_part::<2>(cache, address)
}

pub fn load_byte(cache: &[u32], address: u32) -> u32
    ensures { result ≡ cache_number 1 cache.now address }
{
    load_part::<1>(cache, address)
}

#[tactic(auto, using(crate::specs::StackLaws::put_part_4), unfolding(crate::specs::Stack::put_cache_number, crate::specs::Stack::cache_word))]
pub fn store_word(cache: &mut [u32], address: u32, v: u32)
    ensures { cache.new ≡ put_cache_number 4 cache.old address v }
{
    put_cache_word(&mut *cache, address, v);
}

pub fn store_half(cache: &mut [u32], address: u32, v: u32)
    ensures { cache.new ≡ put_cache_number 2 cache.old address v }
{
    store_part::<2>(&mut *cache, address, v);
}

pub fn store_byte(cache: &mut [u32], address: u32, v: u32)
    ensures { cache.new ≡ put_cache_number 1 cache.old address v }
{
    store_part::<1>(&mut *cache, address, v);
}
