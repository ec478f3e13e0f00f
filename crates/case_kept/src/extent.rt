// How much of the buffers a case has.
ghost use Rattle.std.specs.Prelude.{◌≡◌, ◌≤◌};
ghost use Rattle.case_kept.specs.Extent.{kept_bytes, cache_words, extents_of};

use crate::buffers::{CACHE_COPY, COPY};
use crate::kept::{CODE, HI, Kept, LO, LOCAL, MAIN, WORDS, word};

// The bytes of the code and the memories, how many words of the cache are lent, and the stack area.
#[derive(Clone, Copy, PartialEq, Eq, Debug)]
pub struct Extents {
    pub code: usize,
    pub main: usize,
    pub local: usize,
    pub words: usize,
    pub lo: u32,
    pub hi: u32,
}

fn bytes_of(kept: &Kept, length: usize) -> usize
    ensures { (result ≤ 65536) × (result ≡ kept_bytes kept.now length) }
{
    (word(kept, length) as usize).min(COPY)
}

// More than 512 words are refused, whatever their number.
fn words_of(kept: &Kept) -> usize
    ensures { (result ≤ 513) × (result ≡ cache_words kept.now) }
{
    (word(kept, WORDS) as usize).min(CACHE_COPY)
}

pub fn extents_of(kept: &Kept) -> Extents
    ensures { (result.code ≤ 65536) × (result.main ≤ 65536) × (result.local ≤ 65536) × (result.words ≤ 513) × (result ≡ extents_of kept.now) }
{
    Extents {
        code: bytes_of(kept, CODE),
        main: bytes_of(kept, MAIN),
        local: bytes_of(kept, LOCAL),
        words: words_of(kept),
        lo: word(kept, LO),
        hi: word(kept, HI),
    }
}
