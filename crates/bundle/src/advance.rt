// Bundles one after the other. Settings, state, list and table are judged once before the first.
ghost use Rattle.std.specs.Prelude.{◌≡◌, true};
ghost use Rattle.settings.specs.Settings.{admits};
ghost use Rattle.settings.specs.Setup.{buffers, found, left, lent, given_setup, given_setup_of};
ghost use Rattle.bundle_model.specs.Counts.{no_counts, counts_in};
ghost use Rattle.bundle_model.specs.Execute.{found_whole, handed_back, advanced_back, Kept};
ghost use Rattle.run_model.specs.Loop.{goes_on, advanced};

use crate::attempt::attempt;
use bundle_model::outcome::{counts_in, no_counts};
use bundle_model::ready::readiness;
use bundle_model::{Advanced, Answer, Bundled, Readiness};
use core_state::Core;
use core_state::judged::has_ended;
use settings::{Given, Settings};

// Bundles from a state on, until one is refused, the state has ended, or the budget is used up. The one place that steps. Its copy of what is
// given is seen by nothing outside the loop, so that the loop need not read it again after each store.
fn bundles(
    start: Core,
    registers: &mut [u32; 32],
    predicates: &mut [bool; 8],
    held: &mut [u32; 17],
    blocks: &mut [u32; 17],
    counts: &mut [u64; 6],
    g: Settings,
    given: Given,
    main: &mut [u8],
    local: &mut [u8],
    cache: &mut [u32],
    budget: u32,
) -> Bundled
    requires { (admits g ≡ true) × (g ≡ lent (given_setup_of given g) (buffers main.old local.old cache.old)) × (counts_in counts.old ≡ no_counts) }
    ensures { Kept (handed_back registers predicates held counts result (left main local cache) ≡ goes_on (given_setup_of given.entry g) budget (found_whole registers predicates held start) (found main local cache)) start result.core held.old held.new }
{
    let mut core = start;
    for _ in 0..budget {
        if has_ended(core, g.code) {
            return Bundled {
                answer: Answer::Ended,
                core,
            };
        }
        let r = attempt(
            core,
            &mut *registers,
            &mut *predicates,
            &mut *held,
            &mut *blocks,
            &mut *counts,
            g,
            &given,
            &mut *main,
            &mut *local,
            &mut *cache,
        );
        let answer = r.answer;
        let Answer::Done = answer else {
            return r;
        };
        core = r.core;
    }
    Bundled {
        answer: Answer::Done,
        core,
    }
}

// The same from any state, under any settings: where these are refused, all is left as found.
pub fn advance(
    core: Core,
    registers: &mut [u32; 32],
    predicates: &mut [bool; 8],
    held: &mut [u32; 17],
    given: &Given,
    main: &mut [u8],
    local: &mut [u8],
    cache: &mut [u32],
    budget: u32,
) -> Advanced
    ensures { Kept (advanced_back registers predicates held result (left main local cache) ≡ advanced (given_setup given.now) budget (found_whole registers predicates held core) (found main local cache)) core result.core held.old held.new }
{
    let g = given.settings(main.len(), local.len(), cache.len());
    match readiness(core, &*registers, &*predicates, &*held, given, g) {
        Readiness::Refused(refusal) => Advanced {
            answer: Answer::Refused(refusal),
            core,
            counts: no_counts(),
        },
        Readiness::Ended => Advanced {
            answer: Answer::Ended,
            core,
            counts: no_counts(),
        },
        Readiness::Ready => {
            let mut counts = [0u64; 6];
            let mut blocks = [0u32; 17];
            let r = bundles(
                core,
                &mut *registers,
                &mut *predicates,
                &mut *held,
                &mut blocks,
                &mut counts,
                g,
                *given,
                &mut *main,
                &mut *local,
                &mut *cache,
                budget,
            );
            let answer = r.answer;
            let next = r.core;
            Advanced {
                answer,
                core: next,
                counts: counts_in(&counts),
            }
        }
    }
}
