// Transfers and traps: judged, looked up in the method cache, and counted. Where they go is written with the rest of the state.
ghost use Rattle.std.specs.Prelude.{◌≡◌, Bool, true, List, ℕ};
ghost use Rattle.settings.specs.Settings.{admits};
ghost use Rattle.settings.specs.Setup.{Buffers, setup_of};
ghost use Rattle.bundle_model.specs.Counts.{Few, counts_in};
ghost use Rattle.bundle_model.specs.Execute.{holding, CarriesOut};

use crate::counting::add;
use answers::Refusal;
use bundle_model::outcome::nothing;
use bundle_model::{Carried, Counts};
use bundle_writes::extra_cycles;
use bundle_writes::lookup::look_up_transfer;
use bundle_writes::slot_one::{judge_transfer, judge_trap};
use core_state::Core;
use effects::{Effect, Transfer};
use settings::Settings;

// A transfer that neither 4 nor 13 refuses looks its block up; what is counted is beside the one cycle of its bundle.
pub(crate) fn do_transfer(
    core: Core,
    held: &mut [u32; 17],
    counts: &mut [u64; 6],
    g: Settings,
    code: &[u8],
    delayed: bool,
    transfer: Transfer,
) -> Result<Carried, Refusal>
    requires { (admits g ≡ true) × Few 4294967294 (counts_in counts.old) }
    ensures { (rs : List ℕ) (ps : List Bool) (b : Buffers) → CarriesOut g (setup_of code.now g) (holding rs ps core held) (Effect.Transfer delayed transfer) result b b held counts }
{
    judge_transfer(core, g, code, transfer)?;
    let looked = look_up_transfer(g, code, &mut *held, transfer);
    add(
        &mut *counts,
        Counts {
            bundles: 0,
            cycles: extra_cycles(delayed, transfer),
            spilled: 0,
            filled: 0,
            misses: looked.misses as u64,
            fetched: looked.fetched as u64,
        },
    );
    Ok(nothing())
}

// A trap that neither 16 nor 17 refuses is judged, looked up and counted as a call of its handler.
pub(crate) fn do_trap(
    core: Core,
    held: &mut [u32; 17],
    counts: &mut [u64; 6],
    g: Settings,
    code: &[u8],
    vector: u32,
    handler: u32,
) -> Result<Carried, Refusal>
    requires { (admits g ≡ true) × Few 4294967294 (counts_in counts.old) }
    ensures { (rs : List ℕ) (ps : List Bool) (b : Buffers) → CarriesOut g (setup_of code.now g) (holding rs ps core held) (Effect.Trap vector handler) result b b held counts }
{
    judge_trap(core, vector, handler)?;
    let call = Transfer::Call { target: handler };
    do_transfer(core, &mut *held, &mut *counts, g, code, false, call)
}
