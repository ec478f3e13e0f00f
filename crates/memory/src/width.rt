// The bytes of an access.
ghost use Rattle.std.specs.Prelude.{◌≡◌, ◌<◌, ◌^◌};
ghost use Rattle.memory.specs.Access.{load_scale, store_scale};

use isa::{LoadWidth, StoreWidth};

// How many places an access's immediate is shifted: the access has 2 to that power bytes.
#[tactic(auto, unfolding(crate::specs::Access::load_scale))]
pub fn load_scale(w: LoadWidth) -> u32
    ensures { result ≡ load_scale w }
{
    match w {
        LoadWidth::Word => 2,
        LoadWidth::Half => 1,
        LoadWidth::Byte => 0,
        LoadWidth::HalfUnsigned => 1,
        LoadWidth::ByteUnsigned => 0,
    }
}

#[tactic(auto, unfolding(crate::specs::Access::store_scale))]
pub fn store_scale(w: StoreWidth) -> u32
    ensures { result ≡ store_scale w }
{
    match w {
        StoreWidth::Word => 2,
        StoreWidth::Half => 1,
        StoreWidth::Byte => 0,
    }
}

// The bytes of an access.
#[tactic(auto, using(std::proofs::Common::arith, crate::proofs::Scales::load_few, crate::proofs::Scales::shifted))]
pub fn load_size(w: LoadWidth) -> u32
    ensures { (result ≡ 2 ^ load_scale w) × (0 < result) }
{
    1 << load_scale(w)
}

#[tactic(auto, using(std::proofs::Common::arith, crate::proofs::Scales::store_few, crate::proofs::Scales::shifted))]
pub fn store_size(w: StoreWidth) -> u32
    ensures { (result ≡ 2 ^ store_scale w) × (0 < result) }
{
    1 << store_scale(w)
}
