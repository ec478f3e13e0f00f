// The stack cache: its limits, its window, and its words, which are lent; what moves between it and the stack area.
#![tactic(auto)]

ghost use Rattle.std.specs.Prelude.{◌≡◌};
ghost use Rattle.stack_cache.specs.Stack.{make_cache};

use answers::Refusal;

pub mod access;
pub mod moves;
pub mod window;

// What a stack instruction does.
#[derive(Clone, Copy)]
pub enum StackControl {
    Sres,
    Sens,
    Sfree,
    Sspill,
}

// A cache of W words. The words are lent beside it; the limits on W belong here.
#[derive(Clone, Copy)]
pub struct StackCache {
    pub words: u32,
}

// What a stack instruction comes to before anything moves: st and ss afterwards, and the words spilled and filled.
#[derive(Clone, Copy)]
pub struct Plan {
    pub st: u32,
    pub ss: u32,
    pub spilled: u32,
    pub filled: u32,
}

impl StackCache {
    pub const LEAST: u32 = 4;

    pub const GREATEST: u32 = 512;

    // A cache of W words: W is a power of two within the limits, that is, a divisor of the greatest.
    #[tactic(auto, unfolding(crate::specs::Stack::make_cache, crate::specs::Stack::is_cache_size))]
    pub fn new(words: usize) -> Result<StackCache, Refusal>
        ensures { result ≡ make_cache words }
    {
        let least = StackCache::LEAST as usize;
        let greatest = StackCache::GREATEST as usize;
        if words < least {
            return Err(Refusal::Limits);
        }
        if greatest < words {
            return Err(Refusal::Limits);
        }
        if greatest % words != 0 {
            return Err(Refusal::Limits);
        }
        Ok(StackCache {
            words: words as u32,
        })
    }
}
