// The record of a case's state, and what goes on from the record that a case gives. Neither changes the case's own state or cache.
ghost use Rattle.std.specs.Prelude.{◌≤◌, length};

use crate::Case;
use crate::answer_lines::{put_counts, put_reply};
use crate::kept_state::{config_of, counts_of, state_of};
use bundle_model::Counts;
use case_file::Resumption;
use case_kept::buffers::{RECORD_ROOM, Record};
use case_kept::extent::extents_of;
use case_kept::kept::{Kept, METHOD, is_set};
use case_notes::record::{lay_record, record_length};
use case_notes::replay::{lay_list, lay_table, list_length, table_length};
use case_report::form::say;
use case_report::record_lines::{FILL, put_record, put_rest};
use resume::Resumed;
use settings::Given;
use text::page::Page;

fn put_saved(page: &mut Page, bytes: &Record, length: usize) {
    let n = length.min(RECORD_ROOM);
    say(page, b"save %\n", &[(n / 4) as u64]);
    put_record(page, &bytes[0..n]);
}

// How many bytes the record is written into: where the line says none, as many as the longest has.
fn room_of(room: Option<u32>, words: usize) -> usize
    ensures { result ≤ 8192 }
{
    match room {
        None => record::writing::longest(words).min(RECORD_ROOM),
        Some(n) => (n as usize).min(RECORD_ROOM),
    }
}

fn go_on(
    asked: Resumption,
    record: &[u8],
    given: &Given,
    main: &mut [u8],
    local: &mut [u8],
    out: &mut [u8],
    words: usize,
) -> Resumed {
    match asked {
        Resumption::Run(budget) => resume::resume(record, given, main, local, out, words, budget),
        Resumption::Step => resume::restep(record, given, main, local, out, words),
    }
}

// The same on what the case has of each buffer, from its record.
fn go_on_from(
    asked: Resumption,
    code: &[u8],
    main: &mut [u8],
    local: &mut [u8],
    kept: &Kept,
    out: &mut [u8],
    list: &[u8],
    table: &[u8],
) -> Resumed
    requires { (65536 ≤ length code.now) × (65536 ≤ length main.old) × (65536 ≤ length local.old) }
{
    let mut record = [0u8; 8192];
    lay_record(kept, &mut record);
    let n = record_length(kept);
    let e = extents_of(kept);
    let c = e.code;
    let m = e.main;
    let l = e.local;
    let given = Given {
        code: &code[0..c],
        list,
        table,
        config: config_of(e, kept),
    };
    go_on(
        asked,
        &record[0..n],
        &given,
        &mut main[0..m],
        &mut local[0..l],
        out,
        e.words,
    )
}

fn name_of(asked: Resumption) -> &'static str {
    match asked {
        Resumption::Run(_) => "resume",
        Resumption::Step => "restep",
    }
}

// Where no record was written, nothing is counted.
fn put_counted(page: &mut Page, c: Counts, method: bool, n: usize) {
    if n == 0 {
        page.put_byte(b'\n');
    } else {
        put_counts(
            page,
            &[
                c.bundles, c.cycles, c.spilled, c.filled, c.misses, c.fetched,
            ],
            method,
        );
    }
}

// The answer, the record that was written, and what is left of the room behind it.
fn put_resumed(
    page: &mut Page,
    asked: Resumption,
    r: Resumed,
    method: bool,
    bytes: &Record,
    room: usize,
) {
    let answer = r.answer;
    let counts = r.counts;
    let end = room.min(RECORD_ROOM);
    let n = r.written.min(end);
    put_reply(page, name_of(asked), answer);
    put_counted(page, counts, method, n);
    put_record(page, &bytes[0..n]);
    put_rest(page, &bytes[n..end]);
}

impl Case {
    pub(crate) fn save(&self, page: &mut Page) {
        let mut bytes = [FILL; 8192];
        let kept = &self.kept;
        let e = extents_of(kept);
        let n = record::writing::write_record(
            state_of(kept),
            counts_of(kept),
            &self.cache[0..e.words],
            &mut bytes,
        );
        put_saved(page, &bytes, n);
    }

    // What goes on from the case's record, with the list and the table of the case, which are laid as bytes.
    fn replay_from(&mut self, asked: Resumption, out: &mut [u8]) -> Resumed {
        let mut list = [0u8; 65536];
        let mut table = [0u8; 256];
        lay_list(&self.kept, &mut list);
        lay_table(&self.kept, &mut table);
        let n = list_length(&self.kept);
        let k = table_length(&self.kept);
        go_on_from(
            asked,
            &self.code,
            &mut self.main,
            &mut self.local,
            &self.kept,
            out,
            &list[0..n],
            &table[0..k],
        )
    }

    pub(crate) fn resume(&mut self, asked: Resumption, room: Option<u32>, page: &mut Page) {
        let mut bytes = [FILL; 8192];
        let e = extents_of(&self.kept);
        let n = room_of(room, e.words);
        let r = self.replay_from(asked, &mut bytes[0..n]);
        put_resumed(page, asked, r, is_set(&self.kept, METHOD), &bytes, n);
        self.report_changes(page);
    }
}
