// The words of what waits, of what is under way, of the counts and of the replay.
ghost use Rattle.std.specs.Prelude.{◌≡◌};
ghost use Rattle.core_state.specs.declared.WaitingTransfer.{WaitingTransfer};
ghost use Rattle.record_model.specs.Record.{transfer_section, load_section, product_section, count_section, replay_section, upper, lower};
ghost use Rattle.record_parts.specs.Few.{few_of};

use crate::Few;
use bundle_model::Counts;
use core_state::{WaitingLoad, WaitingTransfer};
use effects::Transfer;
use products::{Product, Products};
use replay::Replay;
use word::arithmetic::add;

// A transfer that waits.
#[tactic(auto, unfolding(record_model::specs::Record::transfer_section))]
fn waiting_words(t: Transfer, wait: u32) -> Few
    ensures { result ≡ few_of (transfer_section (WaitingTransfer.Waits t wait)) }
{
    match t {
        Transfer::Br { target } => Few {
            words: [0, wait, target, 0, 0, 0],
            count: 3,
        },
        Transfer::Call { target } => Few {
            words: [1, wait, target, 0, 0, 0],
            count: 3,
        },
        Transfer::Block { target, base } => Few {
            words: [2, wait, target, base, 0, 0],
            count: 4,
        },
        Transfer::Xret { target, base } => Few {
            words: [3, wait, target, base, 0, 0],
            count: 4,
        },
    }
}

#[tactic(auto, unfolding(record_model::specs::Record::transfer_section))]
pub fn transfer_words(w: WaitingTransfer) -> Few
    ensures { result ≡ few_of (transfer_section w) }
{
    match w {
        WaitingTransfer::Nothing => Few {
            words: [0; 6],
            count: 0,
        },
        WaitingTransfer::Waits { transfer, wait } => waiting_words(transfer, wait),
    }
}

#[tactic(auto, unfolding(record_model::specs::Record::load_section))]
pub fn load_words(l: WaitingLoad) -> Few
    ensures { result ≡ few_of (load_section l) }
{
    match l {
        WaitingLoad::Nothing => Few {
            words: [0; 6],
            count: 0,
        },
        WaitingLoad::Waits { register, value } => Few {
            words: [register, value, 0, 0, 0, 0],
            count: 2,
        },
    }
}

// Two products: the second waits the sum of both waits from now.
#[tactic(auto, unfolding(record_model::specs::Record::product_section))]
fn two_products(p: Product, q: Product) -> Few
    ensures { result ≡ few_of (product_section (Products.Two p q)) }
{
    let wait = add(p.wait, q.wait);
    Few {
        words: [p.wait, p.low, p.high, wait, q.low, q.high],
        count: 6,
    }
}

#[tactic(auto, unfolding(record_model::specs::Record::product_section))]
pub fn product_words(p: Products) -> Few
    ensures { result ≡ few_of (product_section p) }
{
    match p {
        Products::Nothing => Few {
            words: [0; 6],
            count: 0,
        },
        Products::One(first) => Few {
            words: [first.wait, first.low, first.high, 0, 0, 0],
            count: 3,
        },
        Products::Two { first, second } => two_products(first, second),
    }
}

fn upper(n: u64) -> u32
    ensures { result ≡ upper n }
{
    (n / 4294967296) as u32
}

fn lower(n: u64) -> u32
    ensures { result ≡ lower n }
{
    (n % 4294967296) as u32
}

#[tactic(auto, unfolding(record_model::specs::Record::count_section))]
pub fn count_words(c: Counts) -> [u32; 12]
    ensures { result ≡ count_section c }
{
    [
        upper(c.bundles),
        lower(c.bundles),
        upper(c.cycles),
        lower(c.cycles),
        upper(c.spilled),
        lower(c.spilled),
        upper(c.filled),
        lower(c.filled),
        upper(c.misses),
        lower(c.misses),
        upper(c.fetched),
        lower(c.fetched),
    ]
}

#[tactic(auto, unfolding(record_model::specs::Record::replay_section))]
pub fn replay_words(p: Replay) -> [u32; 3]
    ensures { result ≡ replay_section p }
{
    if p.active {
        return [1, p.place, p.done];
    }
    [0, p.place, p.done]
}
