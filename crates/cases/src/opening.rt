// How a case starts, how its places are judged at its first operation, and how its state is opened at the first that needs it.
ghost use Rattle.std.specs.Prelude.{◌≤◌, length};

use crate::Case;
use crate::kept_state::config_of;
use case_file::Reason;
use case_kept::clearing::{clear_cache_copy, clear_memory, copy_memory, fill_cache};
use case_kept::extent::{Extents, extents_of};
use case_kept::kept::{
    BASE, DESCRIBED, ENTRY, FETCH, JUDGED, Kept, LOCAL, MAIN, OPEN, PHASE, REFUSED, SPECIALS,
    forget_case, keep_word, number, word,
};
use case_kept::places::{Store, first_outside, reach_index};
use case_notes::description::is_given;
use case_report::form::say;
use case_report::mistake::fail;
use case_state::listed;
use settings::Config;
use state::{Opened, State};
use text::fields::next_field;
use text::page::Page;

fn put_name(page: &mut Page, line: &[u8], name: usize) {
    let f = next_field(line, name);
    let start = f.start;
    let end = f.end;
    page.put(b"case ");
    page.put(&line[start..end]);
    page.put_byte(b'\n');
}

// How many bytes of a memory a case may have written: those that it has, and those of its places.
fn written(kept: &Kept, length: usize, store: Store) -> usize {
    let reach = number(kept, reach_index(store));
    if number(kept, length) < reach {
        return reach as usize;
    }
    number(kept, length) as usize
}

// The opening over the parts of what is lent that the case asks for.
fn open_parts(
    e: Extents,
    config: Config,
    entry: u32,
    code: &[u8],
    main: &[u8],
    local: &[u8],
    cache: &mut [u32],
) -> Opened
    requires { (e.code ≤ length code.now) × (e.main ≤ length main.now) × (e.local ≤ length local.now) × (e.words ≤ length cache.old) }
{
    let c = e.code;
    let m = e.main;
    let l = e.local;
    let w = e.words;
    State::open(
        &code[0..c],
        &main[0..m],
        &local[0..l],
        &mut cache[0..w],
        config,
        entry,
    )
}

// A word of the state is as built where no line gave it.
fn keep_built(kept: &mut Kept, index: usize, w: u32) {
    if !is_given(kept, index) {
        keep_word(kept, index, w);
    }
}

fn keep_built_specials(kept: &mut Kept, specials: [u32; 8]) {
    for (i, w) in specials.iter().enumerate() {
        keep_built(kept, SPECIALS + i, *w);
    }
}

// The fresh state is completed by what the case puts into it. Registers, predicates, what waits and what is held are kept as described.
fn keep_fresh(kept: &mut Kept, o: Opened) {
    let s = o.state;
    keep_built(kept, FETCH, s.fetch);
    keep_built(kept, BASE, s.base);
    keep_built_specials(kept, listed(s.specials));
    kept[PHASE] = OPEN;
}

// Keeps what came of the opening. The number of a refusal is reported.
fn keep_opened(o: Opened, kept: &mut Kept, page: &mut Page) {
    let answer = o.answer;
    match answer {
        Err(refusal) => {
            kept[PHASE] = REFUSED;
            say(page, b"open refused %\n", &[refusal.number() as u64]);
        }
        Ok(()) => keep_fresh(kept, o),
    }
}

impl Case {
    // The next case: what the one before put into the buffers is cleared.
    pub(crate) fn start(&mut self, line: &[u8], name: usize, page: &mut Page) {
        clear_memory(&mut self.main, written(&self.kept, MAIN, Store::Main));
        clear_memory(&mut self.local, written(&self.kept, LOCAL, Store::Local));
        clear_cache_copy(&mut self.cache);
        forget_case(&mut self.kept);
        self.kept[PHASE] = DESCRIBED;
        put_name(page, line, name);
    }

    // At a case's first operation its places are judged.
    pub(crate) fn judge_places(&mut self, page: &mut Page) {
        if self.kept[PHASE] != DESCRIBED {
            return;
        }
        match first_outside(&self.kept) {
            Some(n) => fail(page, &mut self.kept, n, Reason::PlaceOutside),
            None => self.kept[PHASE] = JUDGED,
        }
    }

    // A case is opened once, when its places are judged.
    pub(crate) fn open(&mut self, page: &mut Page) {
        self.judge_places(page);
        if self.kept[PHASE] != JUDGED {
            return;
        }
        self.open_judged(page);
    }

    // Makes the copies that later tell what an operation changed. The case's cache words stand in the cache's copy. Of a case that is
    // refused nothing is done, so the copies are made in any case.
    fn open_judged(&mut self, page: &mut Page) {
        let e = extents_of(&self.kept);
        let entry = word(&self.kept, ENTRY);
        let config = config_of(e, &self.kept);
        let o = open_parts(
            e,
            config,
            entry,
            &self.code,
            &self.main,
            &self.local,
            &mut self.cache,
        );
        copy_memory(&mut self.main, e.main);
        copy_memory(&mut self.local, e.local);
        fill_cache(&mut self.cache, e.words);
        keep_opened(o, &mut self.kept, page);
    }
}
