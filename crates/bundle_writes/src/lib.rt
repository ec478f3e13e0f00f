// What a bundle that is not refused writes to the state, in the order of the writes, and the cycles of a transfer; before that, slot one
// carried out on the stores, and looked up.
#![tactic(auto)]

ghost use Rattle.std.specs.Prelude.{◌≡◌, Bool, List, ℕ};
ghost use Rattle.products.specs.Words.{nearer_product_words};
ghost use Rattle.core_state.specs.State.{landed, arrived};
ghost use Rattle.core_state.specs.Writes.{write_alu};
ghost use Rattle.core_state.specs.Core.{joined, waiting_transfer, found_state, left_state, load_words, Written};
ghost use Rattle.bundle_model.specs.Bundle.{onward};
ghost use Rattle.bundle_model.specs.Execute.{write_done, extra_cycles};
ghost use Rattle.bundle_writes.specs.Words.{onward_words, load_after, products_after};

use alu_effects::AluEffect;
use core_state::waiting::load_waits;
use core_state::{Core, TransferWords, WaitingLoad};
use effects::{Effect, Transfer};

pub mod lookup;
pub mod slot_one;

// What slot one writes, where carrying it out gave a loaded value, or st and ss.
fn write_one(
    core: Core,
    registers: &mut [u32; 32],
    predicates: &mut [bool; 8],
    one: Effect,
    loaded: u32,
    st: u32,
    ss: u32,
) -> Core
    ensures { Written (left_state registers predicates result ≡ write_done one loaded st ss (found_state registers predicates core)) result core.transfer (load_after one loaded core.load) (products_after one core.products) }
{
    match one {
        Effect::Alu(a) => core.write_alu(&mut *registers, &mut *predicates, a),
        Effect::Special { special, value } => core.write_special(&mut *predicates, special, value),
        Effect::Product { low, high } => core.begin_product(low, high),
        Effect::Load {
            kind: _,
            width: _,
            rd,
            address: _,
        } => core.with_load(load_waits(rd, loaded)),
        Effect::Stack {
            control: _,
            words: _,
            aligned: _,
        } => core.write_stack(st, ss),
        _ => core,
    }
}

// The end of a bundle: its own transfer begins, its trap enters the handler, or a transfer that waits comes nearer.
fn onward(core: Core, one: Effect, waiting: TransferWords, following: u32) -> Core
    ensures { Written ((rs : List ℕ) (ps : List Bool) → joined rs ps result ≡ onward one (waiting_transfer waiting) following (joined rs ps core)) result (onward_words one waiting) core.load core.products }
{
    match one {
        Effect::Transfer { delayed, transfer } => core.begin(delayed, transfer, following),
        Effect::Trap { vector: _, handler } => core.enter(handler, following),
        _ => core.nearer(waiting, following),
    }
}

// The order of the writes: the load that waited, the product that falls due, slot one, slot two, and a transfer that falls due.
pub fn write(
    core: Core,
    registers: &mut [u32; 32],
    predicates: &mut [bool; 8],
    one: Effect,
    two: AluEffect,
    following: u32,
    loaded: u32,
    st: u32,
    ss: u32,
) -> Core
    ensures { Written (left_state registers predicates result ≡ onward one (waiting_transfer core.transfer) following (write_alu two (write_done one loaded st ss (arrived (landed (found_state registers predicates core)))))) result (onward_words one core.transfer) (load_after one loaded (load_words WaitingLoad.Nothing)) (products_after one (nearer_product_words core.products)) }
{
    let waiting = core.transfer;
    let onto = core.land_load(&mut *registers).arrive();
    let after = write_one(onto, &mut *registers, &mut *predicates, one, loaded, st, ss);
    let last = after.write_alu(&mut *registers, &mut *predicates, two);
    onward(last, one, waiting, following)
}

// The cycles of a transfer beside the one of every bundle: a form without delay pays for its delay slots.
pub fn extra_cycles(delayed: bool, t: Transfer) -> u64
    ensures { result ≡ extra_cycles (Effect.Transfer delayed t) }
{
    if delayed {
        return 0;
    }
    match t {
        Transfer::Br { target: _ } => 2,
        Transfer::Call { target: _ } => 3,
        Transfer::Block { target: _, base: _ } => 3,
        Transfer::Xret { target: _, base: _ } => 3,
    }
}
