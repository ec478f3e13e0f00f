// Slot one carried out on the stores, and counted. Each kind of effect is judged whole before anything is written.
ghost use Rattle.std.specs.Prelude.{◌≡◌, Bool, true, List, ℕ, length};
ghost use Rattle.settings.specs.Settings.{admits};
ghost use Rattle.settings.specs.Setup.{found, left, setup_of};
ghost use Rattle.bundle_model.specs.Counts.{Few, counts_in};
ghost use Rattle.bundle_model.specs.Execute.{holding, CarriesOut};

use crate::stack_moves::do_stack;
use crate::transfers::{do_transfer, do_trap};
use answers::Refusal;
use bundle_model::Carried;
use bundle_model::outcome::nothing;
use bundle_writes::slot_one::{do_load, do_store};
use core_state::Core;
use effects::Effect;
use settings::Settings;

// Slot one judged, and carried out on the stores; what it counts beside one cycle is added to the counts.
pub(crate) fn carry_out(
    core: Core,
    held: &mut [u32; 17],
    counts: &mut [u64; 6],
    g: Settings,
    code: &[u8],
    one: Effect,
    main: &mut [u8],
    local: &mut [u8],
    cache: &mut [u32],
) -> Result<Carried, Refusal>
    requires { (admits g ≡ true) × (g.main ≡ length main.old) × Few 4294967294 (counts_in counts.old) }
    ensures { (rs : List ℕ) (ps : List Bool) → CarriesOut g (setup_of code.now g) (holding rs ps core held) one result (found main local cache) (left main local cache) held counts }
{
    let st = core.specials.st;
    let ss = core.specials.ss;
    match one {
        Effect::Load {
            kind,
            width,
            rd: _,
            address,
        } => do_load(g, st, ss, kind, width, address, main, local, cache),
        Effect::Store {
            kind,
            width,
            address,
            value,
        } => do_store(
            g,
            st,
            ss,
            kind,
            width,
            address,
            value,
            &mut *main,
            &mut *local,
            &mut *cache,
        ),
        Effect::Stack {
            control,
            words,
            aligned,
        } => do_stack(
            core,
            &mut *counts,
            g,
            control,
            words,
            aligned,
            &mut *main,
            &mut *cache,
        ),
        Effect::Transfer { delayed, transfer } => do_transfer(
            core,
            &mut *held,
            &mut *counts,
            g,
            code,
            delayed,
            transfer,
        ),
        Effect::Trap { vector, handler } => do_trap(
            core,
            &mut *held,
            &mut *counts,
            g,
            code,
            vector,
            handler,
        ),
        _ => Ok(nothing()),
    }
}
