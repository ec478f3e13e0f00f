// Lines of the file, one after the other. What a line has to report is put on a page, which is written out before the next line is read.
use crate::kinds::{read_kind, reason};
use crate::writing::put_words;
use crate::{Asked, Case, Kind, Shown};
use case_file::{Line, Reason};
use case_input::{Found, look, no_input};
use case_kept::buffers::{Bytes, LineBytes, Report};
use case_kept::kept::{LINE, OPEN, PHASE, STOPPED};
use case_notes::description_line::describe;
use case_report::mistake::fail;
use case_report::output::{say_failure, write_out};
use std::fs::File;
use std::io::Error;
use std::num::wrapping_add_u64;
use text::page::Page;

impl Case {
    // A mistake of the line that was read last.
    fn fail(&mut self, r: Reason, page: &mut Page) {
        let line = self.kept[LINE];
        fail(page, &mut self.kept, line, r);
    }

    // An operation line that needs an opened case: the first one opens it, which is reported only where it is refused. After a refused
    // opening nothing is done.
    fn take_operation(&mut self, asked: Asked, page: &mut Page) {
        self.open(page);
        if self.kept[PHASE] != OPEN {
            return;
        }
        match asked {
            Asked::Check => self.check(page),
            Asked::Save => self.save(page),
            Asked::Resume(asked, room) => self.resume(asked, room, page),
            _ => self.operate(asked, page),
        }
    }

    // An operation line that needs no state, and is done after a refused opening too.
    fn show(&mut self, shown: Shown, page: &mut Page) {
        self.judge_places(page);
        if self.kept[PHASE] == STOPPED {
            return;
        }
        match shown {
            Shown::Words(w) => put_words(page, w),
            Shown::Listing => self.list(page),
        }
    }

    // A line of the case's description.
    fn take_description(&mut self, said: Line, line: &[u8], page: &mut Page) {
        let judged = describe(
            Ok(said),
            line,
            &mut self.code,
            &mut self.main,
            &mut self.local,
            &mut self.cache,
            &mut self.kept,
        );
        if let Err(r) = judged {
            self.fail(r, page);
        }
    }

    // The next line, without its line end.
    fn take_line(&mut self, line: &[u8], page: &mut Page) {
        self.kept[LINE] = wrapping_add_u64(self.kept[LINE], 1);
        match read_kind(self.kept[PHASE], line) {
            Err(r) => self.fail(reason(line, r), page),
            Ok(Kind::Empty) => {}
            Ok(Kind::Start(name)) => self.start(line, name, page),
            Ok(Kind::Show(shown)) => self.show(shown, page),
            Ok(Kind::Operation(asked)) => self.take_operation(asked, page),
            Ok(Kind::Description(said)) => self.take_description(said, line, page),
        }
    }

    // What was found in the file.
    fn take(&mut self, found: Found, line: &LineBytes, page: &mut Page) {
        match found {
            Found::Line(n) => self.take_line(&line[0..n.min(4000)], page),
            Found::Unreadable | Found::End => self.kept[PHASE] = STOPPED,
            Found::TooLong => {
                let line = wrapping_add_u64(self.kept[LINE], 1);
                fail(page, &mut self.kept, line, Reason::LineTooLong);
            }
            Found::Nothing => {}
        }
    }
}

// Why the file could not be read is said on standard error.
fn say_why(rt: &HostRuntime, path: &[u8], failure: &Option<Error>) {
    if let Some(e) = failure {
        say_failure(&mut rt.stderr(), path, e);
    }
}

// Reads to the file's end. A proved loop has to end, and nothing says that a file does, so the turns are counted down.
pub(crate) fn read_all(
    rt: &HostRuntime,
    file: &mut File,
    path: &[u8],
    piece: &mut Bytes,
    line: &mut LineBytes,
    case: &mut Case,
    out: &mut Report,
) {
    let mut failure = None;
    let mut s = no_input();
    for _ in 0..u64::MAX {
        s = look(file, &mut failure, piece, line, s);
        let found = s.found;
        // Most looks hold a byte and find nothing yet. A page made for each of them took reading half as long again.
        if let Found::Nothing = found {
            continue;
        }
        let mut page = Page::new(out);
        case.take(found, line, &mut page);
        let used = page.used;
        if !write_out(&mut rt.stdout(), &mut rt.stderr(), page.out, used) {
            return;
        }
        if case.kept[PHASE] == STOPPED {
            say_why(rt, path, &failure);
            return;
        }
    }
}
