// The method cache: its capacity and the limits of it, the blocks that it holds, which are lent, and what a lookup does to them.
// Open first: lookup.rt, then words.rt.
#![tactic(auto)]

ghost use Rattle.std.specs.Prelude.{◌≡◌};
ghost use Rattle.method_cache.specs.MethodCache.{capacity_ok};

pub mod lookup;
pub mod words;

// Whether there is a method cache, and how many blocks and bytes it holds at most. Switched off, its numbers have no meaning. A flag beside
// numbers, as C and the record have them, and no Option: it goes by value through every bundle, where an enum is dearer.
#[derive(Clone, Copy)]
pub struct Method {
    pub on: bool,
    pub blocks: u32,
    pub bytes: u32,
}

// What one lookup counts: nothing where the block is held, else one miss and the words fetched.
#[derive(Clone, Copy)]
pub struct Looked {
    pub misses: u32,
    pub fetched: u32,
}

impl Method {
    pub const LEAST_BLOCKS: u32 = 1;

    pub const GREATEST_BLOCKS: u32 = 16;

    pub const LEAST_BYTES: u32 = 64;

    pub const GREATEST_BYTES: u32 = 16384;

    // Whether the capacity lies inside the limits, which hold while the cache is on.
    pub fn is_ok(self) -> bool
        ensures { result ≡ capacity_ok self }
    {
        let blocks = (Method::LEAST_BLOCKS <= self.blocks)
            & (self.blocks <= Method::GREATEST_BLOCKS);
        let bytes = (Method::LEAST_BYTES <= self.bytes) & (self.bytes <= Method::GREATEST_BYTES);
        !self.on | (blocks & bytes)
    }
}
