// Slot one carried out on the stores, stack instructions aside: judged whole, and then done.
ghost use Rattle.std.specs.Prelude.{◌≡◌, not, List, [], ◌∷◌, ℕ, ◌^◌};
ghost use Rattle.answers.specs.Test.{test, verdict};
ghost use Rattle.bundle_model.specs.Lookup.{bases_of, lookup_tests};
ghost use Rattle.bundle_model.specs.Refusal.{no_handler};
ghost use Rattle.settings.specs.Setup.{buffers, found, left, setup_of};
ghost use Rattle.memory.specs.Access.{store_scale, loaded_value, load_tests, stored, store_tests};
ghost use Rattle.core_state.specs.State.{none_waits};
ghost use Rattle.core_state.specs.Core.{waiting_transfer};
ghost use Rattle.bundle_model.specs.Execute.{plainly, loading, carried_as, unless_refused};

use crate::lookup::judge_lookup;
use answers::{Refusal, Verdict};
use bundle_model::Carried;
use bundle_model::outcome::nothing;
use core_state::Core;
use core_state::waiting::none_waits;
use effects::Transfer;
use isa::{AccessKind, LoadWidth, StoreWidth};
use memory::access::{load, store};
use memory::judge::{judge_load, judge_store};
use settings::Settings;

pub fn do_load(
    g: Settings,
    st: u32,
    ss: u32,
    kind: AccessKind,
    width: LoadWidth,
    address: u32,
    main: &[u8],
    local: &[u8],
    cache: &[u32],
) -> Result<Carried, Refusal>
    ensures { (code : List ℕ) → carried_as result (buffers main.now local.now cache.now) ≡ unless_refused (verdict (load_tests g (setup_of code g) st ss kind width address)) (buffers main.now local.now cache.now) (carried_as (loading (loaded_value (buffers main.now local.now cache.now) kind width address)) (buffers main.now local.now cache.now)) }
{
    judge_load(g, st, ss, kind, width, address)?;
    Ok(Carried {
        value: load(main, local, cache, kind, width, address),
        st: 0,
        ss: 0,
    })
}

pub fn do_store(
    g: Settings,
    st: u32,
    ss: u32,
    kind: AccessKind,
    width: StoreWidth,
    address: u32,
    value: u32,
    main: &mut [u8],
    local: &mut [u8],
    cache: &mut [u32],
) -> Result<Carried, Refusal>
    ensures { (code : List ℕ) → carried_as result (left main local cache) ≡ unless_refused (verdict (store_tests g (setup_of code g) st ss kind width address)) (found main local cache) (carried_as plainly (stored (found main local cache) kind (2 ^ store_scale width) address value)) }
{
    judge_store(g, st, ss, kind, width, address)?;
    store(
        &mut *main,
        &mut *local,
        &mut *cache,
        kind,
        width,
        address,
        value,
    );
    Ok(nothing())
}

// A trap is refused while a handler is active, and then where it has no handler.
pub fn judge_trap(core: Core, vector: u32, handler: u32) -> Verdict
    ensures { result ≡ verdict (test Refusal.HandlerActive core.replay.active ∷ test Refusal.NoHandler (no_handler vector handler) ∷ []) }
{
    if core.replay.active {
        return Err(Refusal::HandlerActive);
    }
    if (31 < vector) | (handler == 0) {
        return Err(Refusal::NoHandler);
    }
    Ok(())
}

// A transfer is refused while one waits, and then by what its lookup asks.
pub fn judge_transfer(core: Core, g: Settings, code: &[u8], t: Transfer) -> Verdict
    ensures { result ≡ verdict (test Refusal.TransferWaits (not (none_waits (waiting_transfer core.transfer))) ∷ lookup_tests g.method code.now (bases_of (setup_of code.now g) t)) }
{
    let waiting = core.transfer;
    if !none_waits(waiting) {
        return Err(Refusal::TransferWaits);
    }
    judge_lookup(g, code, t)
}
