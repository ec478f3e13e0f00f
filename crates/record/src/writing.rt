// A record written.
ghost use Rattle.std.specs.Prelude.{◌≡◌, ◌∷◌, [], ◌≤◌, min, length};
ghost use Rattle.method_cache.specs.Words.{held_in};
ghost use Rattle.state.specs.Whole.{state_of};
ghost use Rattle.record_model.specs.Record.{box, count_section, replay_section, record_sections};
ghost use Rattle.record.specs.Written.{Put, longest_of, written_of, writing};

use crate::putting::{put_registers, put_section, put_waiting};
use bundle_model::Counts;
use record_parts::writing::{count_words, replay_words};
use replay::Replay;
use stack_cache::StackCache;
use state::State;

// The length of the longest record with W cache words, in bytes; 0 where W is no cache size.
pub fn longest(words: usize) -> usize
    ensures { result ≡ longest_of words }
{
    match StackCache::new(words) {
        Err(_) => 0,
        Ok(c) => 4 * (97 + c.words as usize),
    }
}

fn at_most_16(n: u32) -> usize
    ensures { result ≡ min n 16 }
{
    if 16 < n {
        return 16;
    }
    n as usize
}

// The counts, the blocks held, of whose words as many as the first says, and at most 16, and the replay.
fn put_last(out: &mut [u8], at: u32, counts: Counts, held: [u32; 17], replay: Replay) -> u32
    requires { at ≤ 800000 }
    ensures { Put out.old out.new at result (count_section counts ∷ held_in held ∷ replay_section replay ∷ []) }
{
    let numbers = count_words(counts);
    let next = put_section(&mut *out, at, &numbers);
    let n = at_most_16(held[0]);
    let last = put_section(&mut *out, next, &held[1..1 + n]);
    let words = replay_words(replay);
    put_section(&mut *out, last, &words)
}

// All eleven sections.
fn put_record(state: State, counts: Counts, cache: &[u32], out: &mut [u8]) -> u32
    requires { length cache.now ≤ 512 }
    ensures { Put out.old out.new 0 result (record_sections (box (state_of state) cache.now counts)) }
{
    let specials = state.specials;
    let registers = state.registers;
    let predicates = state.predicates;
    let first = put_registers(
        &mut *out,
        state.fetch,
        state.base,
        registers,
        predicates,
        specials,
    );
    let second = put_section(&mut *out, first, cache);
    let transfer = state.transfer;
    let load = state.load;
    let products = state.products;
    let third = put_waiting(&mut *out, second, transfer, load, products);
    let held = state.held;
    let replay = state.replay;
    put_last(&mut *out, third, counts, held, replay)
}

// The record of a box, over the beginning of a buffer that has room for the longest one; how long it is. Where W is no cache size, or there
// is no such room, the buffer is left as it is, and 0 is given.
pub fn write_record(state: State, counts: Counts, cache: &[u32], out: &mut [u8]) -> usize
    ensures { written_of result out.new ≡ writing (box (state_of state) cache.now counts) out.old }
{
    let room = longest(cache.len());
    if room == 0 {
        return 0;
    }
    if out.len() < room {
        return 0;
    }
    put_record(state, counts, cache, &mut *out) as usize
}
