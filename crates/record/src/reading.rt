// A record read.
ghost use Rattle.std.specs.Prelude.{◌≡◌, ◌≤◌, length};
ghost use Rattle.sections.specs.Words.{words_in, over};
ghost use Rattle.sections.specs.Sections.{section_at};
ghost use Rattle.method_cache.specs.Words.{held_words, FixedHeld};
ghost use Rattle.state.specs.Whole.{state_of};
ghost use Rattle.record_model.specs.Record.{box_in};
ghost use Rattle.record.specs.Read.{read_with, reading};

use crate::Read;
use bundle_model::outcome::no_counts;
use record_parts::form::has_form;
use record_parts::reading::{
    counts_in, load_in, predicates_in, products_in, replay_in, specials_in, transfer_in,
};
use sections::{section_at, word_at};
use state::State;

// The words of a section, to places that there are.
fn copy_words(part: &[u8], to: &mut [u32])
    requires { length (words_in part.now) ≤ length to.old }
    ensures { to.new ≡ over to.old (words_in part.now) }
{
    let n = part.len() / 4;
    for i in 0..n {
        to[i] = word_at(part, i);
    }
}

fn registers_in(part: &[u8]) -> [u32; 32]
    requires { length (words_in part.now) ≡ 32 }
    ensures { result ≡ words_in part.now }
{
    let mut registers = [0u32; 32];
    copy_words(part, &mut registers[0..32]);
    registers
}

// The blocks held, as words: how many there are, the bases, and behind them 0.
fn held_in(part: &[u8]) -> [u32; 17]
    requires { length (words_in part.now) ≤ 16 }
    ensures { result ≡ held_words (words_in part.now) }
{
    let mut held = [0u32; 17];
    copy_words(part, &mut held[1..17]);
    held[0] = (part.len() / 4) as u32;
    held
}

fn state_in(bytes: &[u8]) -> State
    requires { (length (section_at 1 (words_in bytes.now)) ≡ 32) × (length (section_at 9 (words_in bytes.now)) ≤ 16) }
    ensures { (state_of result ≡ (box_in (words_in bytes.now)).state) × FixedHeld result.held }
{
    let flow = section_at(bytes, 0);
    let word = word_at(section_at(bytes, 2), 0);
    State {
        registers: registers_in(section_at(bytes, 1)),
        predicates: predicates_in(word),
        specials: specials_in(section_at(bytes, 3)),
        fetch: word_at(flow, 0),
        base: word_at(flow, 1),
        transfer: transfer_in(section_at(bytes, 5)),
        load: load_in(section_at(bytes, 6)),
        products: products_in(section_at(bytes, 7)),
        held: held_in(section_at(bytes, 9)),
        replay: replay_in(section_at(bytes, 10)),
    }
}

// What bytes say as a record with as many cache words as are lent. They are only told apart by their form here: code and settings, over which
// 11 is judged, are not at hand.
pub fn read_record(bytes: &[u8], cache: &mut [u32]) -> Read
    ensures read { read_with result cache.new ≡ reading bytes.now cache.old }
    ensures fixed { FixedHeld result.state.held }
{
    if !has_form(bytes, cache.len()) {
        return Read {
            formed: false,
            state: State::blank(),
            counts: no_counts(),
        };
    }
    copy_words(section_at(bytes, 4), &mut *cache);
    let state = state_in(bytes);
    let counts = counts_in(section_at(bytes, 8));
    Read {
        formed: true,
        state,
        counts,
    }
}
