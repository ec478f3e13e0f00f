// Loads and stores, once they are judged. Cached and main are one memory.
ghost use Rattle.std.specs.Prelude.{◌≡◌, ◌^◌};
ghost use Rattle.big_endian.specs.Bytes.{number_at, put_number};
ghost use Rattle.stack_cache.specs.Stack.{cache_number, put_cache_number};
ghost use Rattle.memory.specs.Access.{load_scale, store_scale, extended, loaded_value, stored};
ghost use Rattle.settings.specs.Setup.{buffers, found, left};

use isa::{AccessKind, LoadWidth, StoreWidth};
use stack_cache::access;
use word::sign;

#[tactic(auto, unfolding(crate::specs::Access::load_scale, crate::specs::Access::extended))]
fn load_bytes(s: &[u8], width: LoadWidth, a: u32) -> u32
    ensures { result ≡ extended width (number_at (2 ^ load_scale width) s.now a) }
{
    match width {
        LoadWidth::Word => big_endian::read_word(s, a),
        LoadWidth::Half => sign::sign_extend::<16>(big_endian::read_half(s, a)),
        LoadWidth::Byte => sign::sign_extend::<8>(big_endian::read_byte(s, a)),
        LoadWidth::HalfUnsigned => big_endian::read_half(s, a),
        LoadWidth::ByteUnsigned => big_endian::read_byte(s, a),
    }
}

#[tactic(auto, unfolding(crate::specs::Access::load_scale, crate::specs::Access::extended))]
fn load_cache(cache: &[u32], width: LoadWidth, a: u32) -> u32
    ensures { result ≡ extended width (cache_number (2 ^ load_scale width) cache.now a) }
{
    match width {
        LoadWidth::Word => access::load_word(cache, a),
        LoadWidth::Half => sign::sign_extend::<16>(access::load_half(cache, a)),
        LoadWidth::Byte => sign::sign_extend::<8>(access::load_byte(cache, a)),
        LoadWidth::HalfUnsigned => access::load_half(cache, a),
        LoadWidth::ByteUnsigned => access::load_byte(cache, a),
    }
}

// The value that a load brings.
#[tactic(auto, unfolding(crate::specs::Access::loaded_value, crate::specs::Access::read_number))]
pub fn load(
    main: &[u8],
    local: &[u8],
    cache: &[u32],
    kind: AccessKind,
    width: LoadWidth,
    a: u32,
) -> u32
    ensures { result ≡ loaded_value (buffers main.now local.now cache.now) kind width a }
{
    match kind {
        AccessKind::Stack => load_cache(cache, width, a),
        AccessKind::Local => load_bytes(local, width, a),
        AccessKind::Cached => load_bytes(main, width, a),
        AccessKind::Main => load_bytes(main, width, a),
    }
}

#[tactic(auto, unfolding(crate::specs::Access::store_scale))]
fn store_bytes(s: &mut [u8], width: StoreWidth, a: u32, v: u32)
    ensures { s.new ≡ put_number (2 ^ store_scale width) s.old a v }
{
    match width {
        StoreWidth::Word => big_endian::write_word(&mut *s, a, v),
        StoreWidth::Half => big_endian::write_half(&mut *s, a, v),
        StoreWidth::Byte => big_endian::write_byte(&mut *s, a, v),
    }
}

#[tactic(auto, unfolding(crate::specs::Access::store_scale))]
fn store_cache(cache: &mut [u32], width: StoreWidth, a: u32, v: u32)
    ensures { cache.new ≡ put_cache_number (2 ^ store_scale width) cache.old a v }
{
    match width {
        StoreWidth::Word => access::store_word(&mut *cache, a, v),
        StoreWidth::Half => access::store_half(&mut *cache, a, v),
        StoreWidth::Byte => access::store_byte(&mut *cache, a, v),
    }
}

// A store carried out.
#[tactic(auto, unfolding(crate::specs::Access::stored))]
pub fn store(
    main: &mut [u8],
    local: &mut [u8],
    cache: &mut [u32],
    kind: AccessKind,
    width: StoreWidth,
    a: u32,
    v: u32,
)
    ensures { left main local cache ≡ stored (found main local cache) kind (2 ^ store_scale width) a v }
{
    match kind {
        AccessKind::Stack => store_cache(&mut *cache, width, a, v),
        AccessKind::Local => store_bytes(&mut *local, width, a, v),
        AccessKind::Cached => store_bytes(&mut *main, width, a, v),
        AccessKind::Main => store_bytes(&mut *main, width, a, v),
    }
}
