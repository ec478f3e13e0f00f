// What the description lines of a case say of its numbers, gathered in any order. Where the line is a mistake, a function answers why.
ghost use Rattle.std.specs.Prelude.{◌≡◌, ◌<◌};
ghost use Rattle.case_notes.specs.Description.{noted, is_given, mark_given, give as giveAt, number_once, length_once, transfer_once, special_index, one_of32, predicate, special, product_more, method_once, given, given_read};

use crate::waiting::{keep_load, keep_product, keep_transfer};
use case_file::{Line, Named, Reason};
use case_kept::kept::{
    BASE, BLOCK, BLOCKS, BR, BYTES, CALL, ENTRY, FETCH, GIVEN, HI, Kept, LO, LOAD, LOCAL, MAIN,
    METHOD, PREDICATES, PRODUCT, PRODUCTS, RECORD_BYTES, REGISTERS, SPECIALS, TRANSFER, WORDS,
    XRET, is_set, is_set_after, keep_after, keep_flag, keep_word,
};
use case_words::SpecialName;

const GREATEST: u32 = 65536;

// Whether a line gave the number at an index.
pub fn is_given(kept: &Kept, index: usize) -> bool
    ensures { result ≡ is_given kept.now index }
{
    is_set_after(kept, GIVEN, index)
}

fn mark_given(kept: &mut Kept, index: usize)
    ensures { kept.new ≡ mark_given kept.old index }
{
    keep_after(&mut *kept, GIVEN, index, 1);
}

// A number, and that a line gave it.
fn give_number(kept: &mut Kept, index: usize, n: u32)
    ensures { kept.new ≡ giveAt kept.old index n }
{
    mark_given(&mut *kept, index);
    keep_word(&mut *kept, index, n);
}

// A number that a case gives once.
pub(crate) fn give_once(kept: &mut Kept, index: usize, n: u32) -> Result<(), Reason>
    ensures { noted result kept.new ≡ number_once kept.old index n }
{
    if is_given(&*kept, index) {
        return Err(Reason::Repeated);
    }
    give_number(&mut *kept, index, n);
    Ok(())
}

// The length of a memory.
fn give_length(kept: &mut Kept, index: usize, n: u32) -> Result<(), Reason>
    ensures { noted result kept.new ≡ length_once kept.old index n }
{
    if is_given(&*kept, index) {
        return Err(Reason::Repeated);
    }
    if GREATEST < n {
        return Err(Reason::TooMuchMemory);
    }
    give_number(&mut *kept, index, n);
    Ok(())
}

#[tactic(auto, unfolding(crate::specs::Description::given))]
fn give_stack(kept: &mut Kept, words: u32, lo: u32, hi: u32) -> Result<(), Reason>
    ensures { noted result kept.new ≡ given (Line.Stack words lo hi) kept.old }
{
    if is_given(&*kept, WORDS) {
        return Err(Reason::Repeated);
    }
    give_number(&mut *kept, WORDS, words);
    kept[LO] = lo as u64;
    kept[HI] = hi as u64;
    Ok(())
}

// One of 32 numbers from an index on.
pub(crate) fn give_one_of_32(kept: &mut Kept, first: usize, n: u32, w: u32) -> Result<(), Reason>
    ensures { noted result kept.new ≡ one_of32 kept.old first n w }
{
    if n < 32 {
        keep_after(&mut *kept, first, n as usize, w as u64);
        return Ok(());
    }
    Ok(())
}

fn give_predicate(kept: &mut Kept, p: u32, v: bool) -> Result<(), Reason>
    ensures { noted result kept.new ≡ predicate kept.old p v }
{
    if p < 8 {
        keep_flag(&mut *kept, PREDICATES + (p as usize), v);
        return Ok(());
    }
    Ok(())
}

// The index of a special register in the list of them.
fn special_index(name: SpecialName) -> usize
    ensures { (result ≡ special_index name) × (result < 8) }
{
    match name {
        SpecialName::Sl => 0,
        SpecialName::Sh => 1,
        SpecialName::Ss => 2,
        SpecialName::St => 3,
        SpecialName::Srb => 4,
        SpecialName::Sro => 5,
        SpecialName::Sxb => 6,
        SpecialName::Sxo => 7,
    }
}

fn give_special(kept: &mut Kept, name: Named, w: u32) -> Result<(), Reason>
    ensures { noted result kept.new ≡ special kept.old name w }
{
    if let Some(name) = name {
        give_number(&mut *kept, SPECIALS + special_index(name), w);
    }
    Ok(())
}

fn give_transfer(kept: &mut Kept, kind: u64, a: u32, b: u32, c: u32) -> Result<(), Reason>
    ensures { noted result kept.new ≡ transfer_once kept.old kind a b c }
{
    if is_given(&*kept, TRANSFER) {
        return Err(Reason::Repeated);
    }
    mark_given(&mut *kept, TRANSFER);
    keep_transfer(&mut *kept, kind, a, b, c);
    Ok(())
}

#[tactic(auto, unfolding(crate::specs::Description::given))]
fn give_load(kept: &mut Kept, register: u32, value: u32) -> Result<(), Reason>
    ensures { noted result kept.new ≡ given (Line.Load register value) kept.old }
{
    if is_given(&*kept, LOAD) {
        return Err(Reason::Repeated);
    }
    mark_given(&mut *kept, LOAD);
    keep_load(&mut *kept, register, value);
    Ok(())
}

// One product more under way, put in its place by rising wait.
#[tactic(auto, unfolding(crate::specs::Description::product_more))]
fn give_product(kept: &mut Kept, wait: u32, low: u32, high: u32) -> Result<(), Reason>
    ensures { noted result kept.new ≡ product_more kept.old wait low high }
{
    let count = kept[PRODUCTS];
    if count == 0 {
        kept[PRODUCTS] = 1;
        keep_product(&mut *kept, PRODUCT, wait as u64, low as u64, high as u64);
        return Ok(());
    }
    if count != 1 {
        return Err(Reason::TooManyProducts);
    }
    let first = kept[PRODUCT];
    if first <= wait as u64 {
        keep_product(
            &mut *kept,
            PRODUCT + 3,
            wait as u64,
            low as u64,
            high as u64,
        );
        kept[PRODUCTS] = 2;
        return Ok(());
    }
    let first_low = kept[PRODUCT + 1];
    let first_high = kept[PRODUCT + 2];
    keep_product(&mut *kept, PRODUCT + 3, first, first_low, first_high);
    keep_product(&mut *kept, PRODUCT, wait as u64, low as u64, high as u64);
    kept[PRODUCTS] = 2;
    Ok(())
}

// The method cache's capacity.
#[tactic(auto, unfolding(crate::specs::Description::method_once))]
fn give_method(kept: &mut Kept, blocks: u32, bytes: u32) -> Result<(), Reason>
    ensures { noted result kept.new ≡ method_once kept.old blocks bytes }
{
    if is_set(&*kept, METHOD) {
        return Err(Reason::Repeated);
    }
    kept[METHOD] = 1;
    kept[BLOCKS] = blocks as u64;
    kept[BYTES] = bytes as u64;
    Ok(())
}

// A line that needs nothing but its own numbers.
#[tactic(auto, unfolding(crate::specs::Description::given))]
fn give_line(kept: &mut Kept, said: Line) -> Result<(), Reason>
    ensures { noted result kept.new ≡ given said kept.old }
{
    match said {
        Line::Main(n) => give_length(&mut *kept, MAIN, n),
        Line::Local(n) => give_length(&mut *kept, LOCAL, n),
        Line::Stack { words, lo, hi } => give_stack(&mut *kept, words, lo, hi),
        Line::Entry(a) => give_once(&mut *kept, ENTRY, a),
        Line::Fetch(a) => give_once(&mut *kept, FETCH, a),
        Line::Base(a) => give_once(&mut *kept, BASE, a),
        Line::Reg { number, word } => give_one_of_32(&mut *kept, REGISTERS, number, word),
        Line::Pred { number, value } => give_predicate(&mut *kept, number, value),
        Line::Special { name, word } => give_special(&mut *kept, name, word),
        Line::Br { target, wait } => give_transfer(&mut *kept, BR, target, wait, 0),
        Line::Call { target, wait } => give_transfer(&mut *kept, CALL, target, wait, 0),
        Line::Block { target, base, wait } => {
            give_transfer(&mut *kept, BLOCK, target, base, wait)
        }
        Line::Load { number, word } => give_load(&mut *kept, number, word),
        Line::Product { wait, low, high } => give_product(&mut *kept, wait, low, high),
        Line::Method { blocks, bytes } => give_method(&mut *kept, blocks, bytes),
        Line::RecordBytes(n) => give_once(&mut *kept, RECORD_BYTES, n),
        Line::Xret { target, base, wait } => give_transfer(&mut *kept, XRET, target, base, wait),
        _ => Ok(()),
    }
}

// The same of what a line was read as: a mistake leaves the numbers alone.
pub fn give(kept: &mut Kept, read: Result<Line, Reason>) -> Result<(), Reason>
    ensures { noted result kept.new ≡ given_read read kept.old }
{
    match read {
        Ok(said) => give_line(&mut *kept, said),
        Err(_) => Ok(()),
    }
}
