// What is left of a bundle once its effects are known: slot one is carried out, then the state is written, and then the bundle's
// own cycle is counted.
ghost use Rattle.std.specs.Prelude.{◌≡◌, true, length};
ghost use Rattle.settings.specs.Settings.{admits};
ghost use Rattle.settings.specs.Setup.{found, left, setup_of};
ghost use Rattle.bundle_model.specs.Counts.{Few, counts_in};
ghost use Rattle.bundle_model.specs.Bundle.{counted};
ghost use Rattle.bundle_model.specs.Execute.{found_whole, handed_back, executed, Kept};

use crate::counting::add;
use crate::slot_one::carry_out;
use alu_effects::AluEffect;
use bundle_model::outcome::{done, refused};
use bundle_model::{Bundled, Carried, Counts};
use bundle_writes::write;
use core_state::Core;
use effects::Effect;
use settings::Settings;

// A decoded bundle, whose slots have these effects, done or refused.
pub(crate) fn execute(
    core: Core,
    registers: &mut [u32; 32],
    predicates: &mut [bool; 8],
    held: &mut [u32; 17],
    counts: &mut [u64; 6],
    g: Settings,
    code: &[u8],
    one: Effect,
    two: AluEffect,
    following: u32,
    main: &mut [u8],
    local: &mut [u8],
    cache: &mut [u32],
) -> Bundled
    requires { (admits g ≡ true) × (g.main ≡ length main.old) × Few 4294967294 (counts_in counts.old) }
    ensures { Kept (handed_back registers predicates held counts result (left main local cache) ≡ counted (counts_in counts.old) (executed g (setup_of code.now g) (found_whole registers predicates held core) one two following (found main local cache))) core result.core held.old held.new }
{
    match carry_out(
        core,
        &mut *held,
        &mut *counts,
        g,
        code,
        one,
        &mut *main,
        &mut *local,
        &mut *cache,
    ) {
        Err(refusal) => refused(core, refusal),
        Ok(Carried { value, st, ss }) => {
            let next = write(
                core,
                &mut *registers,
                &mut *predicates,
                one,
                two,
                following,
                value,
                st,
                ss,
            );
            add(
                &mut *counts,
                Counts {
                    bundles: 1,
                    cycles: 1,
                    spilled: 0,
                    filled: 0,
                    misses: 0,
                    fetched: 0,
                },
            );
            done(next)
        }
    }
}
