// Whole parts of the buffers.
ghost use Rattle.std.specs.Prelude.{◌≡◌};
ghost use Rattle.case_kept.specs.Clearing.{cleared_memory, cleared_cache_copy, copied_memory, copied_cache, filled_cache, put_in_copy};

use crate::buffers::{CACHE_COPY, COPY, Cache, Memory};

// The first n bytes of a memory are made zero.
#[tactic(auto, using(crate::specs::ClearingLaws::zeros_in_front, std::proofs::Common::rules, std::proofs::lemmas::Grind::common_steps, crate::specs::Clearing::set_each))]
pub fn clear_memory(memory: &mut Memory, n: usize)
    ensures { memory.new ≡ cleared_memory memory.old n }
{
    memory[..n.min(COPY)].fill(0);
}

// The words that a case puts into the cache stand in its copy until the case is opened.
pub fn clear_cache_copy(cache: &mut Cache)
    ensures { cache.new ≡ cleared_cache_copy cache.old }
{
    cache[CACHE_COPY..].fill(0);
}

// The first n bytes of a memory are copied.
pub fn copy_memory(memory: &mut Memory, n: usize)
    ensures { memory.new ≡ copied_memory memory.old n }
{
    let end = n.min(COPY);
    let (memory, copy) = memory.split_at_mut(COPY);
    copy[..end].copy_from_slice(&memory[..end]);
}

// The first n words of the cache are copied.
pub fn copy_cache(cache: &mut Cache, n: usize)
    ensures { cache.new ≡ copied_cache cache.old n }
{
    let end = n.min(CACHE_COPY);
    let (cache, copy) = cache.split_at_mut(CACHE_COPY);
    copy[..end].copy_from_slice(&cache[..end]);
}

// The first n words of the cache are taken from its copy.
pub fn fill_cache(cache: &mut Cache, n: usize)
    ensures { cache.new ≡ filled_cache cache.old n }
{
    let end = n.min(CACHE_COPY);
    let (cache, copy) = cache.split_at_mut(CACHE_COPY);
    cache[..end].copy_from_slice(&copy[..end]);
}

pub fn put_in_copy(cache: &mut Cache, place: usize, w: u32)
    ensures { cache.new ≡ put_in_copy cache.old place w }
{
    if place < CACHE_COPY {
        cache[CACHE_COPY + place] = w;
    }
}
