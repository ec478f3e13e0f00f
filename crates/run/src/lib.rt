// A run with a budget.
#![tactic(auto)]

ghost use Rattle.std.specs.Prelude.{◌≡◌};
ghost use Rattle.settings.specs.Setup.{given_setup, found, left};
ghost use Rattle.method_cache.specs.Words.{FixedHeld};
ghost use Rattle.core_state.specs.State.{Shaped};
ghost use Rattle.state.specs.Whole.{state_of};
ghost use Rattle.run_model.specs.Run.{run};
ghost use Rattle.run.specs.Ran.{returned, ends_with, whole};

use answers::Refusal;
use bundle::advance::advance;
use bundle_model::{Answer, Counts};
use core_state::judged::has_ended;
use method_cache::words::tidy;
use settings::Given;
use state::State;

// What a run answers: a way to end more than a Result has.
#[derive(Clone, Copy)]
pub enum RunAnswer {
    Ended,
    Spent,
    Refused(Refusal),
}

// A run's answer, with the state handed back and the counts of the bundles done.
#[derive(Clone, Copy)]
pub struct Ran {
    pub answer: RunAnswer,
    pub state: State,
    pub counts: Counts,
}

// What a run answers whose bundles were advanced so far.
fn at_end(a: Answer, ended: bool) -> RunAnswer
    ensures { returned result ≡ ends_with a ended }
{
    match a {
        Answer::Refused(refusal) => RunAnswer::Refused(refusal),
        Answer::Ended => RunAnswer::Ended,
        Answer::Done => {
            if ended {
                return RunAnswer::Ended;
            }
            RunAnswer::Spent
        }
    }
}

// A run from a state. Inside it the registers, the predicates, the blocks held and the counts are lent to each
// bundle. That the state has 32 registers and 8 predicates,
// as its type says, is what even pace asks of it.
pub fn run(
    start: State,
    given: &Given,
    main: &mut [u8],
    local: &mut [u8],
    cache: &mut [u32],
    budget: u32,
) -> Ran
    ensures ran { whole result (left main local cache) ≡ run (given_setup given.now) budget (state_of start) (found main local cache) }
    ensures shaped { Shaped (state_of start) }
    ensures fixed { FixedHeld result.state.held }
{
    let mut registers = start.registers;
    let mut predicates = start.predicates;
    let mut held = start.held;
    tidy(&mut held);
    let r = advance(
        start.core(),
        &mut registers,
        &mut predicates,
        &mut held,
        given,
        &mut *main,
        &mut *local,
        &mut *cache,
        budget,
    );
    let answer = r.answer;
    let core = r.core;
    let counts = r.counts;
    let code = given.code;
    let ended = has_ended(core, code.len());
    let state = State::join(registers, predicates, held, core);
    Ran {
        answer: at_end(answer, ended),
        state,
        counts,
    }
}
