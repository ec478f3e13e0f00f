// Runs the cases of a case file and writes their report to standard output. Where there is nothing to read, it says so on
// standard error.
#![tactic(auto)]

mod answer_lines;
mod check_code;
mod kept_state;
mod kinds;
mod lines;
mod opening;
mod operation;
mod resuming;
mod writing;

use case_file::{Line, Resumption};
use case_kept::buffers::{Bytes, Cache, Memory};
use case_kept::kept::Kept;
use case_report::output::say_failure;
use encoder::Written;
use lines::read_all;
use std::env::FillError;
use std::fs::File;
use std::io::{Error, Result, Write};
use std::rt::Env;
use std::str::from_utf8;

// A case from line to line: its code, its memories and its cache, with room for what they held before an operation, and its numbers.
#[derive(Drop)]
struct Case {
    code: Bytes,
    main: Memory,
    local: Memory,
    cache: Cache,
    kept: Kept,
}

// What is asked for of an opened case: the check of its code, a step, a run with a budget, the record of its state, or to go on from
// the record that it gives.
#[derive(Clone, Copy)]
enum Asked {
    Check,
    Step,
    Run(u32),
    Save,
    Resume(Resumption, Option<u32>),
}

// What is asked for that needs no state: words to be shown, or a listing.
#[derive(Clone, Copy)]
enum Shown {
    Words(Written),
    Listing,
}

// What a line is to the case.
#[derive(Clone, Copy)]
enum Kind {
    Empty,
    Start(usize),
    Operation(Asked),
    Show(Shown),
    Description(Line),
}

// All buffers stand in this frame.
fn read_cases(rt: &HostRuntime, file: &mut File, path: &[u8]) {
    let mut piece = [0u8; 65536];
    let mut line = [0u8; 4000];
    let mut case = Case {
        code: [0; 65536],
        main: [0; 131072],
        local: [0; 131072],
        cache: [0; 1026],
        kept: [0; 160600],
    };
    let mut out = [0u8; 1048576];
    read_all(rt, file, path, &mut piece, &mut line, &mut case, &mut out);
}

// The system's numbers for a name that is too long, and for bytes that are no text.
const NAME_TOO_LONG: i32 = 36;

const NO_TEXT: i32 = 84;

// A name that is no text names no file that can be opened.
fn open(rt: &HostRuntime, name: &[u8]) -> Result<File> {
    match from_utf8(name) {
        Ok(path) => File::open(rt, path),
        Err(_) => Err(Error::from_raw_os_error(NO_TEXT)),
    }
}

fn read_cases_of(rt: &HostRuntime, name: &[u8]) {
    match open(rt, name) {
        Ok(file) => {
            let mut file = file;
            read_cases(rt, &mut file, name);
        }
        Err(e) => say_failure(&mut rt.stderr(), name, &e),
    }
}

// Whether a word stands behind the program's name and the file's.
fn has_more_words(rt: &HostRuntime) -> bool {
    let mut word = [0u8; 4096];
    !matches!(rt.arg(2, &mut word), Err(FillError::NotPresent))
}

fn say_usage(rt: &HostRuntime) {
    let _ = rt.stderr().write_all(b"usage: cases FILE\n");
}

fn main(rt: HostRuntime) {
    if has_more_words(&rt) {
        say_usage(&rt);
        return;
    }
    let mut path = [0u8; 4096];
    match rt.arg(1, &mut path) {
        Ok(n) => read_cases_of(&rt, &path[..n]),
        Err(FillError::NotPresent) => say_usage(&rt),
        Err(FillError::TooLong) => say_failure(
            &mut rt.stderr(),
            b"path",
            &Error::from_raw_os_error(NAME_TOO_LONG),
        ),
    }
}
