// The parts that the words of a section say, whatever they are; words that there are not read as 0.
ghost use Rattle.std.specs.Prelude.{◌≡◌, ◌+◌, ◌-◌, get_or};
ghost use Rattle.sections.specs.Words.{words_in};
ghost use Rattle.core_state.specs.State.{predicates_of};
ghost use Rattle.products.specs.Products.{product};
ghost use Rattle.record_model.specs.Record.{specials_in, transfer_of, transfer_in, load_in, products_in, count_at, counts_of_words, replay_in};

use alu_effects::Specials;
use bundle_model::Counts;
use core_state::{WaitingLoad, WaitingTransfer};
use effects::Transfer;
use products::{Product, Products};
use replay::Replay;
use sections::word_at;

// The low eight bits of a word, the lowest first.
#[tactic(auto, unfolding(core_state::specs::State::predicates_of))]
pub fn predicates_in(word: u32) -> [bool; 8]
    ensures { result ≡ predicates_of 8 word }
{
    let a = word / 2;
    let b = a / 2;
    let c = b / 2;
    let d = c / 2;
    let e = d / 2;
    let f = e / 2;
    let g = f / 2;
    [
        word % 2 == 1,
        a % 2 == 1,
        b % 2 == 1,
        c % 2 == 1,
        d % 2 == 1,
        e % 2 == 1,
        f % 2 == 1,
        g % 2 == 1,
    ]
}

pub fn specials_in(part: &[u8]) -> Specials
    ensures { result ≡ specials_in (words_in part.now) }
{
    Specials {
        sl: word_at(part, 0),
        sh: word_at(part, 1),
        ss: word_at(part, 2),
        st: word_at(part, 3),
        srb: word_at(part, 4),
        sro: word_at(part, 5),
        sxb: word_at(part, 6),
        sxo: word_at(part, 7),
    }
}

#[tactic(auto, unfolding(record_model::specs::Record::transfer_of))]
fn transfer_of(kind: u32, target: u32, base: u32) -> Transfer
    ensures { result ≡ transfer_of kind target base }
{
    if kind == 0 {
        return Transfer::Br { target };
    }
    if kind == 1 {
        return Transfer::Call { target };
    }
    if kind == 2 {
        return Transfer::Block { target, base };
    }
    Transfer::Xret { target, base }
}

#[tactic(auto, using(sections::specs::WordLaws::words_length), unfolding(record_model::specs::Record::transfer_in))]
pub fn transfer_in(part: &[u8]) -> WaitingTransfer
    ensures { result ≡ transfer_in (words_in part.now) }
{
    if part.len() / 4 == 0 {
        return WaitingTransfer::Nothing;
    }
    let transfer = transfer_of(word_at(part, 0), word_at(part, 2), word_at(part, 3));
    let wait = word_at(part, 1);
    WaitingTransfer::Waits { transfer, wait }
}

#[tactic(auto, using(sections::specs::WordLaws::words_length), unfolding(record_model::specs::Record::load_in))]
pub fn load_in(part: &[u8]) -> WaitingLoad
    ensures { result ≡ load_in (words_in part.now) }
{
    if part.len() / 4 == 0 {
        return WaitingLoad::Nothing;
    }
    let register = word_at(part, 0);
    let value = word_at(part, 1);
    WaitingLoad::Waits { register, value }
}

// The product in three words from a place on, with a wait of its own.
fn product_at(part: &[u8], i: u32, wait: u32) -> Product
    ensures { result ≡ product wait (get_or (words_in part.now) (i + 1) 0) (get_or (words_in part.now) (i + 2) 0) }
{
    Product {
        low: word_at(part, i as usize + 1),
        wait,
        high: word_at(part, i as usize + 2),
    }
}

// How much longer one waits than another, or 0.
fn longer(wait: u32, than: u32) -> u32
    ensures { result ≡ wait - than }
{
    if wait < than {
        return 0;
    }
    wait - than
}

#[tactic(auto, using(sections::specs::WordLaws::words_length), unfolding(record_model::specs::Record::products_in))]
pub fn products_in(part: &[u8]) -> Products
    ensures { result ≡ products_in (words_in part.now) }
{
    let words = part.len() / 4;
    if words == 0 {
        return Products::Nothing;
    }
    let wait = word_at(part, 0);
    let first = product_at(part, 0, wait);
    if words == 3 {
        return Products::One(first);
    }
    let second = product_at(part, 3, longer(word_at(part, 3), wait));
    Products::Two { first, second }
}

#[tactic(auto, unfolding(record_model::specs::Record::count_at))]
fn count_at(part: &[u8], i: u32) -> u64
    ensures { result ≡ count_at (words_in part.now) i }
{
    let upper = word_at(part, i as usize);
    let lower = word_at(part, i as usize + 1);
    (upper as u64) * 4294967296 + (lower as u64)
}

pub fn counts_in(part: &[u8]) -> Counts
    ensures { result ≡ counts_of_words (words_in part.now) }
{
    Counts {
        bundles: count_at(part, 0),
        cycles: count_at(part, 2),
        spilled: count_at(part, 4),
        filled: count_at(part, 6),
        misses: count_at(part, 8),
        fetched: count_at(part, 10),
    }
}

pub fn replay_in(part: &[u8]) -> Replay
    ensures { result ≡ replay_in (words_in part.now) }
{
    let active = word_at(part, 0);
    Replay {
        active: active == 1,
        place: word_at(part, 1),
        done: word_at(part, 2),
    }
}
