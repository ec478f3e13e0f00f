// One bundle: what stands at the fetch address, done or refused.
ghost use Rattle.std.specs.Prelude.{◌≡◌, true, length};
ghost use Rattle.settings.specs.Settings.{admits};
ghost use Rattle.settings.specs.Setup.{found, left, given_setup_of};
ghost use Rattle.bundle_model.specs.Counts.{Few, counts_in};
ghost use Rattle.bundle_model.specs.Bundle.{counted, bundle};
ghost use Rattle.bundle_model.specs.Execute.{found_whole, handed_back, Kept};

use crate::execute::execute;
use bundle_model::Bundled;
use bundle_model::outcome::refused;
use core_state::Core;
use effects::slot::{slot_one, slot_two};
use fetch::{Fetched, fetch};
use settings::{Given, Settings};

// The bundle at the fetch address of a state, done or refused; what it counts is added to the counts.
pub(crate) fn bundle(
    core: Core,
    registers: &mut [u32; 32],
    predicates: &mut [bool; 8],
    held: &mut [u32; 17],
    counts: &mut [u64; 6],
    g: Settings,
    given: &Given,
    main: &mut [u8],
    local: &mut [u8],
    cache: &mut [u32],
) -> Bundled
    requires { (admits g ≡ true) × (g.main ≡ length main.old) × (g.code ≡ length given.now.code.now) × Few 4294967294 (counts_in counts.old) }
    ensures { Kept (handed_back registers predicates held counts result (left main local cache) ≡ counted (counts_in counts.old) (bundle g (given_setup_of given.now g) (found_whole registers predicates held core) (found main local cache))) core result.core held.old held.new }
{
    let at = core.fetch;
    let code = given.code;
    match fetch(code, at) {
        Err(refusal) => refused(core, refusal),
        Ok(Fetched { bundle, following }) => {
            let specials = core.specials;
            let table = given.table;
            let one = slot_one(&*registers, &*predicates, specials, at, table, bundle);
            let two = slot_two(&*registers, &*predicates, bundle);
            execute(
                core,
                &mut *registers,
                &mut *predicates,
                &mut *held,
                &mut *counts,
                g,
                code,
                one,
                two,
                following as u32,
                &mut *main,
                &mut *local,
                &mut *cache,
            )
        }
    }
}
