// Parts of a state among the kept numbers of a case.
#![tactic(auto)]

ghost use Rattle.std.specs.Prelude.{◌≡◌, ◌+◌, ◌<◌, ◌≤◌};
ghost use Rattle.case_kept.specs.Indices.{ALL};
ghost use Rattle.case_kept.specs.Kept.{kept_words};
ghost use Rattle.case_state.specs.KeptState.{registers_of, specials_of, list_of, with_words, with_predicates, transfer_with, transfer_of, load_of, with_target, with_waiting, with_waiting_load, product_of, wait_behind, products_of, with_products, held_of, with_held};

use alu_effects::Specials;
use case_kept::kept::{
    BLOCK, BR, CALL, HELD, Kept, LOAD, LOADED, PREDICATES, PRODUCT, PRODUCTS, REGISTERS, SPECIALS,
    TARGET, TRANSFER, XRET, is_set, keep_after, keep_flag, number, word,
};
use case_notes::waiting::{keep_load, keep_product, keep_transfer};
use core_state::{WaitingLoad, WaitingTransfer};
use effects::Transfer;
use products::{Product, Products};

// So many words from an index on.
fn words_of<const N: usize>(kept: &Kept, first: usize) -> [u32; N]
    requires { first + N ≤ ALL }
    ensures { result ≡ kept_words N kept.now first }
{
    let mut words = [0u32; N];
    for i in 0..N {
        words[i] = word(kept, first + i);
    }
    words
}

// All 32 registers.
pub fn registers_of(kept: &Kept) -> [u32; 32]
    ensures { result ≡ registers_of kept.now }
{
    words_of(kept, REGISTERS)
}

pub fn specials_of(kept: &Kept) -> Specials
    ensures { result ≡ specials_of kept.now }
{
    Specials {
        sl: word(kept, SPECIALS),
        sh: word(kept, SPECIALS + 1),
        ss: word(kept, SPECIALS + 2),
        st: word(kept, SPECIALS + 3),
        srb: word(kept, SPECIALS + 4),
        sro: word(kept, SPECIALS + 5),
        sxb: word(kept, SPECIALS + 6),
        sxo: word(kept, SPECIALS + 7),
    }
}

// The blocks held: how many, and then their bases.
pub fn held_of(kept: &Kept) -> [u32; 17]
    ensures { result ≡ held_of kept.now }
{
    words_of(kept, HELD)
}

// Words, as registers or special registers, from an index on.
pub fn keep_words(kept: &mut Kept, first: usize, words: &[u32])
    ensures { kept.new ≡ with_words kept.old first words.now }
{
    for (i, w) in words.iter().enumerate() {
        keep_after(&mut *kept, first, i, u64::from(*w));
    }
}

pub fn keep_held(kept: &mut Kept, held: [u32; 17])
    ensures { kept.new ≡ with_held kept.old held }
{
    keep_words(&mut *kept, HELD, &held);
}

pub fn keep_predicates(kept: &mut Kept, predicates: [bool; 8])
    ensures { kept.new ≡ with_predicates kept.old predicates }
{
    for i in 0..8 {
        keep_flag(&mut *kept, PREDICATES + i, predicates[i]);
    }
}

// The special registers in the order in which they are kept.
pub fn listed(s: Specials) -> [u32; 8]
    ensures { result ≡ list_of s }
{
    [s.sl, s.sh, s.ss, s.st, s.srb, s.sro, s.sxb, s.sxo]
}

// A transfer of a kind with the numbers of its line.
fn transfer_with(kind: u64, a: u32, b: u32, c: u32) -> WaitingTransfer
    ensures { result ≡ transfer_with kind a b c }
{
    match kind {
        BR => WaitingTransfer::Waits {
            transfer: Transfer::Br { target: a },
            wait: b,
        },
        CALL => WaitingTransfer::Waits {
            transfer: Transfer::Call { target: a },
            wait: b,
        },
        BLOCK => WaitingTransfer::Waits {
            transfer: Transfer::Block { target: a, base: b },
            wait: c,
        },
        XRET => WaitingTransfer::Waits {
            transfer: Transfer::Xret { target: a, base: b },
            wait: c,
        },
        _ => WaitingTransfer::Nothing,
    }
}

pub fn transfer_of(kept: &Kept) -> WaitingTransfer
    ensures { result ≡ transfer_of kept.now }
{
    transfer_with(
        number(kept, TRANSFER),
        word(kept, TARGET),
        word(kept, TARGET + 1),
        word(kept, TARGET + 2),
    )
}

pub fn load_of(kept: &Kept) -> WaitingLoad
    ensures { result ≡ load_of kept.now }
{
    if is_set(kept, LOAD) {
        return WaitingLoad::Waits {
            register: word(kept, LOADED),
            value: word(kept, LOADED + 1),
        };
    }
    WaitingLoad::Nothing
}

// A transfer as its line in a file has it.
fn keep_target(kept: &mut Kept, t: Transfer, wait: u32)
    ensures { kept.new ≡ with_target kept.old t wait }
{
    match t {
        Transfer::Br { target } => keep_transfer(&mut *kept, BR, target, wait, 0),
        Transfer::Call { target } => keep_transfer(&mut *kept, CALL, target, wait, 0),
        Transfer::Block { target, base } => keep_transfer(&mut *kept, BLOCK, target, base, wait),
        Transfer::Xret { target, base } => keep_transfer(&mut *kept, XRET, target, base, wait),
    }
}

// Where nothing waits only the kind, or the flag, is put.
pub fn keep_waiting(kept: &mut Kept, w: WaitingTransfer)
    ensures { kept.new ≡ with_waiting kept.old w }
{
    match w {
        WaitingTransfer::Nothing => kept[TRANSFER] = 0,
        WaitingTransfer::Waits { transfer, wait } => keep_target(&mut *kept, transfer, wait),
    }
}

pub fn keep_waiting_load(kept: &mut Kept, w: WaitingLoad)
    ensures { kept.new ≡ with_waiting_load kept.old w }
{
    match w {
        WaitingLoad::Nothing => kept[LOAD] = 0,
        WaitingLoad::Waits { register, value } => keep_load(&mut *kept, register, value),
    }
}

// A product from an index on, which waits so long.
fn product_of(kept: &Kept, first: usize, wait: u32) -> Product
    requires { first < ALL }
    ensures { result ≡ product_of kept.now first wait }
{
    Product {
        wait,
        low: word(kept, first + 1),
        high: word(kept, first + 2),
    }
}

// How long after the first the second lands.
fn wait_behind(kept: &Kept) -> u32
    ensures { result ≡ wait_behind kept.now }
{
    let first = number(kept, PRODUCT);
    let second = number(kept, PRODUCT + 3);
    if second < first {
        return 0;
    }
    ((second - first) % 4294967296) as u32
}

pub fn products_of(kept: &Kept) -> Products
    ensures { result ≡ products_of kept.now }
{
    let count = number(kept, PRODUCTS);
    if count == 0 {
        return Products::Nothing;
    }
    let first = product_of(kept, PRODUCT, word(kept, PRODUCT));
    if count == 1 {
        return Products::One(first);
    }
    let second = product_of(kept, PRODUCT + 3, wait_behind(kept));
    Products::Two { first, second }
}

// Where nothing is under way only the count is put.
pub fn keep_products(kept: &mut Kept, p: Products)
    ensures { kept.new ≡ with_products kept.old p }
{
    match p {
        Products::Nothing => kept[PRODUCTS] = 0,
        Products::One(first) => {
            kept[PRODUCTS] = 1;
            keep_product(
                &mut *kept,
                PRODUCT,
                first.wait as u64,
                first.low as u64,
                first.high as u64,
            );
        }
        Products::Two { first, second } => {
            kept[PRODUCTS] = 2;
            keep_product(
                &mut *kept,
                PRODUCT,
                first.wait as u64,
                first.low as u64,
                first.high as u64,
            );
            keep_product(
                &mut *kept,
                PRODUCT + 3,
                first.wait as u64 + second.wait as u64,
                second.low as u64,
                second.high as u64,
            );
        }
    }
}
