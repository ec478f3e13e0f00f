// What waits, as words inside a bundle and as enums in a state.
ghost use Rattle.std.specs.Prelude.{◌≡◌, ◌≤◌};
ghost use Rattle.core_state.specs.State.{load_ok, wait_ok, none_waits};
ghost use Rattle.core_state.specs.Core.{transfer_in, waiting_transfer, waiting_load, transfer_words, load_words, one_less};

use crate::{LoadWords, TransferWords, WaitingLoad, WaitingTransfer};
use effects::Transfer;

// A transfer that waits this long.
pub(crate) fn transfer_waits(t: Transfer, wait: u32) -> TransferWords
    ensures { result ≡ transfer_words (WaitingTransfer.Waits t wait) }
{
    match t {
        Transfer::Br { target } => TransferWords {
            kind: 1,
            target,
            base: 0,
            wait,
        },
        Transfer::Call { target } => TransferWords {
            kind: 2,
            target,
            base: 0,
            wait,
        },
        Transfer::Block { target, base } => TransferWords {
            kind: 3,
            target,
            base,
            wait,
        },
        Transfer::Xret { target, base } => TransferWords {
            kind: 4,
            target,
            base,
            wait,
        },
    }
}

pub(crate) fn no_transfer() -> TransferWords
    ensures { result ≡ transfer_words WaitingTransfer.Nothing }
{
    TransferWords {
        kind: 0,
        target: 0,
        base: 0,
        wait: 0,
    }
}

pub fn transfer_words(w: WaitingTransfer) -> TransferWords
    ensures { result ≡ transfer_words w }
{
    match w {
        WaitingTransfer::Nothing => no_transfer(),
        WaitingTransfer::Waits { transfer, wait } => transfer_waits(transfer, wait),
    }
}

pub(crate) fn transfer_in(w: TransferWords) -> Transfer
    ensures { result ≡ transfer_in w }
{
    let target = w.target;
    if w.kind == 1 {
        return Transfer::Br { target };
    }
    if w.kind == 2 {
        return Transfer::Call { target };
    }
    let base = w.base;
    if w.kind == 3 {
        return Transfer::Block { target, base };
    }
    Transfer::Xret { target, base }
}

pub fn waiting_transfer(w: TransferWords) -> WaitingTransfer
    ensures { result ≡ waiting_transfer w }
{
    if w.kind == 0 {
        return WaitingTransfer::Nothing;
    }
    let transfer = transfer_in(w);
    let wait = w.wait;
    WaitingTransfer::Waits { transfer, wait }
}

// A transfer comes one bundle nearer: its other words stay.
pub(crate) fn one_less(w: TransferWords) -> TransferWords
    requires { 1 ≤ w.wait }
    ensures { result ≡ one_less w }
{
    TransferWords {
        kind: w.kind,
        target: w.target,
        base: w.base,
        wait: w.wait - 1,
    }
}

pub(crate) fn no_load() -> LoadWords
    ensures { result ≡ load_words WaitingLoad.Nothing }
{
    LoadWords {
        waits: 0,
        register: 0,
        value: 0,
    }
}

// A load of this value to this register waits.
pub fn load_waits(register: u32, value: u32) -> LoadWords
    ensures { result ≡ load_words (WaitingLoad.Waits register value) }
{
    LoadWords {
        waits: 1,
        register,
        value,
    }
}

pub fn load_words(l: WaitingLoad) -> LoadWords
    ensures { result ≡ load_words l }
{
    match l {
        WaitingLoad::Nothing => no_load(),
        WaitingLoad::Waits { register, value } => load_waits(register, value),
    }
}

pub fn waiting_load(l: LoadWords) -> WaitingLoad
    ensures { result ≡ waiting_load l }
{
    if l.waits == 0 {
        return WaitingLoad::Nothing;
    }
    let register = l.register;
    let value = l.value;
    WaitingLoad::Waits { register, value }
}

pub(crate) fn load_ok(l: LoadWords) -> bool
    ensures { result ≡ load_ok (waiting_load l) }
{
    (l.waits == 0) | (l.register <= 31)
}

pub fn none_waits(w: TransferWords) -> bool
    ensures { result ≡ none_waits (waiting_transfer w) }
{
    w.kind == 0
}

pub(crate) fn wait_ok(w: TransferWords) -> bool
    ensures { result ≡ wait_ok (waiting_transfer w) }
{
    (w.kind == 0) | ((1 <= w.wait) & (w.wait <= 3))
}
