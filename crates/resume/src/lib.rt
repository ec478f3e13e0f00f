// Steps and runs from a record: the state goes in and out as bytes.
#![tactic(auto)]

ghost use Rattle.std.specs.Prelude.{◌≡◌, true, List, ℕ, ◌≤◌, length};
ghost use Rattle.answers.specs.Refusal.{number};
ghost use Rattle.settings.specs.Settings.{admits};
ghost use Rattle.settings.specs.Setup.{given_setup, settings};
ghost use Rattle.state.specs.Whole.{state_of};
ghost use Rattle.bundle_model.specs.Bundle.{returned as answered};
ghost use Rattle.run.specs.Ran.{returned as ran};
ghost use Rattle.record_model.specs.Record.{longest};
ghost use Rattle.resume_model.specs.Resume.{as_found, as_step, resumed, restepped};
ghost use Rattle.resume.specs.Resumed.{returned, judged_by, resumed_with};

use answers::{Refusal, Verdict};
use bundle_model::outcome::no_counts;
use bundle_model::{Answer, Counts};
use core_state::judged::parts_ok;
use method_cache::lookup::held_ok;
use record::reading::read_record;
use record::writing::{longest, write_record};
use replay::replay_ok;
use run::{RunAnswer, run};
use settings::Given;
use state::State;

// What a step or a run from a record answers: more ways to end than a Result has.
#[derive(Clone, Copy)]
pub enum Reply {
    Done,
    Ended,
    Spent,
    Refused(Refusal),
}

// The answer, the counts of this call, and how many bytes of a record were written.
#[derive(Clone, Copy)]
pub struct Resumed {
    pub answer: Reply,
    pub counts: Counts,
    pub written: usize,
}

fn turned_away(refusal: Refusal) -> Resumed
    ensures { (main local out : List ℕ) → resumed_with result main local out ≡ as_found (number refusal) main local out }
{
    Resumed {
        answer: Reply::Refused(refusal),
        counts: no_counts(),
        written: 0,
    }
}

impl From<RunAnswer> for Reply {
    ghost from_gives = { λ a r. returned r ≡ ran a };

    fn from(a: RunAnswer) -> Reply {
        match a {
            RunAnswer::Ended => Reply::Ended,
            RunAnswer::Spent => Reply::Spent,
            RunAnswer::Refused(refusal) => Reply::Refused(refusal),
        }
    }
}

impl From<Answer> for Reply {
    ghost from_gives = { λ a r. returned r ≡ answered a };

    fn from(a: Answer) -> Reply {
        match a {
            Answer::Done => Reply::Done,
            Answer::Ended => Reply::Ended,
            Answer::Refused(refusal) => Reply::Refused(refusal),
        }
    }
}

// What is judged of a record that was read. A state that 11 describes is 14 here.
fn judged(state: State, given: &Given) -> Verdict
    ensures { result ≡ judged_by (given_setup given.now) (state_of state) }
{
    let registers = state.registers;
    let predicates = state.predicates;
    let held = state.held;
    let code = given.code;
    let method = given.config.method;
    let parts = parts_ok(state.core(), &registers, &predicates);
    if !(parts & held_ok(method, code, &held)) {
        return Err(Refusal::Record);
    }
    let list = given.list;
    let table = given.table;
    if !replay_ok(list, table) {
        return Err(Refusal::Replay);
    }
    Ok(())
}

// A run from a record where settings and room have been judged. The cache's words are those that are lent, and then those of the record.
fn go_on(
    bytes: &[u8],
    given: &Given,
    main: &mut [u8],
    local: &mut [u8],
    out: &mut [u8],
    cache: &mut [u32],
    budget: u32,
) -> Resumed
    requires { (admits (settings (given_setup given.now) (length main.old) (length local.old) (length cache.old)) ≡ true) × (longest (length cache.old) ≤ length out.old) }
    ensures { resumed_with result main.new local.new out.new ≡ resumed (given_setup given.now) budget (length cache.old) bytes.now main.old local.old out.old }
{
    let read = read_record(bytes, &mut *cache);
    if !read.formed {
        return turned_away(Refusal::Record);
    }
    let start = read.state;
    if let Err(refusal) = judged(start, given) {
        return turned_away(refusal);
    }
    let r = run(start, given, &mut *main, &mut *local, &mut *cache, budget);
    let answer = r.answer;
    let state = r.state;
    let counts = r.counts;
    let written = write_record(state, counts, &*cache, &mut *out);
    Resumed {
        answer: Reply::from(answer),
        counts,
        written,
    }
}

// The same with so many of the words that are handed in as the cache; what they hold does not matter.
fn with_cache(
    bytes: &[u8],
    given: &Given,
    main: &mut [u8],
    local: &mut [u8],
    out: &mut [u8],
    words: usize,
    budget: u32,
    scratch: [u32; 512],
) -> Resumed
    requires { (admits (settings (given_setup given.now) (length main.old) (length local.old) words) ≡ true) × (longest words ≤ length out.old) }
    ensures { resumed_with result main.new local.new out.new ≡ resumed (given_setup given.now) budget words bytes.now main.old local.old out.old }
{
    let mut cache = scratch;
    go_on(
        bytes,
        given,
        &mut *main,
        &mut *local,
        &mut *out,
        &mut cache[0..words],
        budget,
    )
}

// A run with a budget from a record with so many cache words. 1, then 14, then 15, leave every buffer as found; any other answer writes the
// record of the state that is left over the beginning of out.
pub fn resume(
    bytes: &[u8],
    given: &Given,
    main: &mut [u8],
    local: &mut [u8],
    out: &mut [u8],
    words: usize,
    budget: u32,
) -> Resumed
    ensures { resumed_with result main.new local.new out.new ≡ resumed (given_setup given.now) budget words bytes.now main.old local.old out.old }
{
    let g = given.settings(main.len(), local.len(), words);
    if !g.admits() {
        return turned_away(Refusal::Limits);
    }
    if out.len() < longest(words) {
        return turned_away(Refusal::Record);
    }
    with_cache(
        bytes,
        given,
        &mut *main,
        &mut *local,
        &mut *out,
        words,
        budget,
        [0; 512],
    )
}

// What a step answers where a run with a budget of 1 answers so after so many bundles.
fn as_step(a: Reply, bundles: u64) -> Reply
    ensures { returned result ≡ as_step (returned a) bundles }
{
    if bundles == 1 {
        return Reply::Done;
    }
    a
}

// One step from a record, in the same way.
pub fn restep(
    bytes: &[u8],
    given: &Given,
    main: &mut [u8],
    local: &mut [u8],
    out: &mut [u8],
    words: usize,
) -> Resumed
    ensures { resumed_with result main.new local.new out.new ≡ restepped (given_setup given.now) words bytes.now main.old local.old out.old }
{
    let r = resume(bytes, given, &mut *main, &mut *local, &mut *out, words, 1);
    let answer = r.answer;
    let counts = r.counts;
    Resumed {
        answer: as_step(answer, counts.bundles),
        counts,
        written: r.written,
    }
}
