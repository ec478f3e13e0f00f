// The words that a stack instruction moves between the cache and the stack area, which is lent alone: lo is its address.
ghost use Rattle.std.specs.Prelude.{◌≡◌};
ghost use Rattle.stack_cache.specs.Stack.{below, above, spilled, filled};

use crate::access::{cache_word, put_cache_word};
use big_endian::{read_word, write_word};
use word::arithmetic::{add, sub};

// As many words as asked below ss are spilled, the one at ss - 4 first.
#[tactic(auto, using(big_endian::specs::BytesLaws::length_put_number, crate::specs::StackLaws::spilled_step, crate::specs::StackLaws::spilled_none))]
pub fn spill(area: &mut [u8], cache: &[u32], lo: u32, ss: u32, words: u32)
    ensures { area.new ≡ spilled cache.now lo area.old (below words ss) }
{
    let mut end = ss;
    for _ in 0..words {
        let a = sub(end, 4);
        write_word(&mut *area, sub(a, lo), cache_word(cache, a));
        end = a;
    }
}

// As many words as asked from ss up are filled.
#[tactic(auto, using(crate::specs::StackLaws::length_put_cache_word, crate::specs::StackLaws::filled_step, crate::specs::StackLaws::filled_none))]
pub fn fill(area: &[u8], cache: &mut [u32], lo: u32, ss: u32, words: u32)
    ensures { cache.new ≡ filled area.now lo cache.old (above words ss) }
{
    let mut a = ss;
    for _ in 0..words {
        put_cache_word(&mut *cache, a, read_word(area, sub(a, lo)));
        a = add(a, 4);
    }
}
