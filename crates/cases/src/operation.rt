// Operations that go on from a state, on the parts of the buffers that a case has, and their reports.
ghost use Rattle.std.specs.Prelude.{◌≤◌, length};

use crate::answer_lines::{put_counts, put_reply};
use crate::kept_state::{config_of, keep_counts, keep_far, keep_state, state_of};
use crate::{Asked, Case};
use case_kept::clearing::{copy_cache, copy_memory};
use case_kept::extent::extents_of;
use case_kept::kept::{COUNTS, Kept, METHOD, is_set};
use case_notes::replay::{lay_list, lay_table, list_length, table_length};
use case_report::changes::put_changes;
use case_report::state_lines::put_state;
use resume::Reply;
use run::Ran;
use settings::Given;
use state::Stepped;
use text::page::Page;

// The state that is left is kept, and the counts.
fn keep_step(r: Stepped, kept: &mut Kept) -> Reply {
    let answer = r.answer;
    let counts = r.counts;
    let state = r.state;
    let replay = state.replay;
    keep_state(kept, state);
    keep_far(kept, replay);
    keep_counts(kept, counts);
    Reply::from(answer)
}

fn keep_run(r: Ran, kept: &mut Kept) -> Reply {
    let answer = r.answer;
    let counts = r.counts;
    let state = r.state;
    let replay = state.replay;
    keep_state(kept, state);
    keep_far(kept, replay);
    keep_counts(kept, counts);
    Reply::from(answer)
}

fn operate(
    asked: Asked,
    given: &Given,
    main: &mut [u8],
    local: &mut [u8],
    cache: &mut [u32],
    kept: &mut Kept,
) -> Reply {
    let s = state_of(kept);
    match asked {
        Asked::Run(budget) => keep_run(run::run(s, given, main, local, cache, budget), kept),
        _ => keep_step(s.step(given, main, local, cache), kept),
    }
}

// The operation on what the case has of each buffer, and on its list and table.
fn operate_on(
    asked: Asked,
    code: &[u8],
    list: &[u8],
    table: &[u8],
    main: &mut [u8],
    local: &mut [u8],
    cache: &mut [u32],
    kept: &mut Kept,
) -> Reply
    requires { (65536 ≤ length code.now) × (65536 ≤ length main.old) × (65536 ≤ length local.old) × (513 ≤ length cache.old) }
{
    let e = extents_of(kept);
    let c = e.code;
    let m = e.main;
    let l = e.local;
    let w = e.words;
    let given = Given {
        code: &code[0..c],
        list,
        table,
        config: config_of(e, kept),
    };
    operate(
        asked,
        &given,
        &mut main[0..m],
        &mut local[0..l],
        &mut cache[0..w],
        kept,
    )
}

fn name_of(asked: Asked) -> &'static str {
    match asked {
        Asked::Run(_) => "run",
        _ => "step",
    }
}

// The answer, and the counts, which are kept.
fn put_outcome(page: &mut Page, asked: Asked, r: Reply, kept: &Kept) {
    put_reply(page, name_of(asked), r);
    put_counts(page, &kept[COUNTS..COUNTS + 6], is_set(kept, METHOD));
}

impl Case {
    // The operation on the list and the table of the case, which are laid as bytes.
    fn replay_on(&mut self, asked: Asked) -> Reply {
        let mut list = [0u8; 65536];
        let mut table = [0u8; 256];
        lay_list(&self.kept, &mut list);
        lay_table(&self.kept, &mut table);
        let n = list_length(&self.kept);
        let k = table_length(&self.kept);
        operate_on(
            asked,
            &self.code,
            &list[0..n],
            &table[0..k],
            &mut self.main,
            &mut self.local,
            &mut self.cache,
            &mut self.kept,
        )
    }

    // The change lines. What is reported is changed no longer: the copies of the memories are brought up to date.
    pub(crate) fn report_changes(&mut self, page: &mut Page) {
        let e = extents_of(&self.kept);
        put_changes(page, &self.main, &self.local, &self.cache, e);
        copy_memory(&mut self.main, e.main);
        copy_memory(&mut self.local, e.local);
    }

    // A step or a run, with its answer, the state lines and the change lines.
    pub(crate) fn operate(&mut self, asked: Asked, page: &mut Page) {
        let r = self.replay_on(asked);
        put_outcome(page, asked, r, &self.kept);
        put_state(page, &self.kept);
        self.report_changes(page);
        let e = extents_of(&self.kept);
        copy_cache(&mut self.cache, e.words);
    }
}
