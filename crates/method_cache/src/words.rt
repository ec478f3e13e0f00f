// The blocks held, as words that are lent: how many there are, and then the base of each, the oldest first. A count above 16 reads as 16.
ghost use Rattle.std.specs.Prelude.{◌≡◌, ◌≤◌, ◌+◌, length, get_or};
ghost use Rattle.method_cache.specs.Words.{held_in, held_words, kept_from, place_word};

// That an array has the length of its type, which is known of one by value, and not of one that is lent.
fn seventeen(held: [u32; 17])
    ensures { length held ≡ 17 }
{}

// How many blocks there are.
pub(crate) fn held_count(held: &[u32; 17]) -> u32
    ensures { (result ≡ length (held_in held.now)) × (length held.now ≡ 17) }
{
    seventeen(*held);
    let n = held[0];
    if 16 < n {
        return 16;
    }
    n
}

// The base of the block at a place, the oldest at 0.
pub(crate) fn held_base(held: &[u32; 17], at: u32) -> u32
    ensures { result ≡ get_or (held_in held.now) at 0 }
{
    let n = held_count(held);
    if n <= at {
        return 0;
    }
    held[at as usize + 1]
}

// The word of a place in what is to be held: of blocks that stay, of one that follows them, and behind it 0.
fn word_at(held: &[u32; 17], at: u32, from: u32, stay: u32, more: bool, base: u32) -> u32
    requires { from + stay ≤ 16 }
    ensures { result ≡ place_word held.now from stay more base at }
{
    if at < stay {
        return held[(from + at) as usize + 1];
    }
    if more & (at == stay) {
        return base;
    }
    0
}

// The blocks from a place on stay, a new one follows them if there is one, and the words behind are 0.
pub(crate) fn settle(held: &mut [u32; 17], from: u32, more: bool, base: u32)
    requires { from ≤ length (held_in held.old) }
    ensures { (held.new ≡ held_words (kept_from from more base (held_in held.old))) × (length held.old ≡ 17) }
{
    let stay = held_count(&*held) - from;
    for i in 0..16 {
        let w = word_at(&*held, i, from, stay, more, base);
        held[i as usize + 1] = w;
    }
    if more {
        held[0] = stay + 1;
        return;
    }
    held[0] = stay;
}

// The words of the same blocks, with nothing behind them.
pub fn tidy(held: &mut [u32; 17])
    ensures { (held.new ≡ held_words (held_in held.old)) × (length held.old ≡ 17) }
{
    settle(&mut *held, 0, false, 0);
}
