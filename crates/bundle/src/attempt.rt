// A bundle as it is tried: with the record that is due, which is undone where the bundle is refused.
ghost use Rattle.std.specs.Prelude.{◌≡◌, ℕ, Bool, true, List, ◌∷◌, eqb, length};
ghost use Rattle.answers.specs.Test.{test, verdict};
ghost use Rattle.settings.specs.Settings.{admits};
ghost use Rattle.settings.specs.Setup.{found, left, given_setup_of, setup_of};
ghost use Rattle.bundle_model.specs.Counts.{Few, Fit, plus, counts_in};
ghost use Rattle.bundle_model.specs.Lookup.{looked_up, lookup_tests};
ghost use Rattle.bundle_model.specs.Bundle.{counted, attempt};
ghost use Rattle.bundle_model.specs.Execute.{found_whole, handed_back, Kept};
ghost use Rattle.bundle.specs.AttemptLaws.{looked_counts, Enters};

use crate::Entry;
use crate::counting::add;
use crate::fetched::bundle;
use answers::{Refusal, Verdict};
use bundle_model::outcome::{done, refused};
use bundle_model::{Answer, Bundled, Counts};
use bundle_writes::lookup::{judge_lookup, look_up_transfer};
use core_state::Core;
use core_state::waiting::none_waits;
use effects::Transfer;
use method_cache::Looked;
use replay::{handler_of, is_due};
use settings::{Given, Settings};

// What a record's lookup counts is added to the counts.
fn add_looked(counts: &mut [u64; 6], looked: Looked)
    requires { Fit (plus (counts_in counts.old) (looked_counts looked)) }
    ensures { counts_in counts.new ≡ plus (counts_in counts.old) (looked_counts looked) }
{
    add(
        &mut *counts,
        Counts {
            bundles: 0,
            cycles: 0,
            spilled: 0,
            filled: 0,
            misses: looked.misses as u64,
            fetched: looked.fetched as u64,
        },
    );
}

// 17 and 13 of the handler of a record that is due.
fn judge_entry(g: Settings, code: &[u8], handler: u32) -> Verdict
    ensures { result ≡ verdict (test Refusal.NoHandler (eqb handler 0) ∷ lookup_tests g.method code.now (looked_up (setup_of code.now g) handler handler)) }
{
    if handler == 0 {
        return Err(Refusal::NoHandler);
    }
    judge_lookup(g, code, Transfer::Call { target: handler })
}

// The record that is due taken, where one is: from what is given the bundle is done. The blocks held before its lookup are kept in `blocks`, for
// the case that the bundle is refused. While no record is due nothing of this is touched.
fn enter(
    core: Core,
    held: &mut [u32; 17],
    blocks: &mut [u32; 17],
    g: Settings,
    given: &Given,
) -> Result<Entry, Refusal>
    requires { admits g ≡ true }
    ensures { (rs : List ℕ) (ps : List Bool) → Enters (given_setup_of given.now g) rs ps core held.old blocks.new held.new result }
{
    let replay = core.replay;
    let waiting = core.transfer;
    let list = given.list;
    let due = is_due(list, replay) & none_waits(waiting);
    if !due {
        return Ok(Entry {
            core,
            due,
            looked: Looked {
                misses: 0,
                fetched: 0,
            },
        });
    }
    let code = given.code;
    let table = given.table;
    let handler = handler_of(list, table, replay.place);
    judge_entry(g, code, handler)?;
    *blocks = *held;
    let call = Transfer::Call { target: handler };
    let looked = look_up_transfer(g, code, &mut *held, call);
    Ok(Entry {
        core: core.take(handler),
        due,
        looked,
    })
}

// A bundle, with the record that is due; where it is refused, by whatever number, all is as before.
pub(crate) fn attempt(
    core: Core,
    registers: &mut [u32; 32],
    predicates: &mut [bool; 8],
    held: &mut [u32; 17],
    blocks: &mut [u32; 17],
    counts: &mut [u64; 6],
    g: Settings,
    given: &Given,
    main: &mut [u8],
    local: &mut [u8],
    cache: &mut [u32],
) -> Bundled
    requires { (admits g ≡ true) × (g.main ≡ length main.old) × (g.code ≡ length given.now.code.now) × Few 4294967294 (counts_in counts.old) }
    ensures { Kept (handed_back registers predicates held counts result (left main local cache) ≡ counted (counts_in counts.old) (attempt g (given_setup_of given.now g) (found_whole registers predicates held core) (found main local cache))) core result.core held.old held.new }
{
    match enter(core, &mut *held, &mut *blocks, g, given) {
        Err(refusal) => refused(core, refusal),
        Ok(
            Entry {
                core: from,
                due,
                looked,
            },
        ) => {
            let r = bundle(
                from,
                &mut *registers,
                &mut *predicates,
                &mut *held,
                &mut *counts,
                g,
                given,
                &mut *main,
                &mut *local,
                &mut *cache,
            );
            let answer = r.answer;
            let next = r.core;
            let Answer::Done = answer else {
                if due {
                    *held = *blocks;
                    return Bundled { answer, core };
                }
                return Bundled { answer, core };
            };
            if due {
                add_looked(&mut *counts, looked);
                return done(next.count());
            }
            done(next.count())
        }
    }
}
