// Runs a workload and prints what came of it, in the form of the plain interpreter in bench/: to be timed from outside.
#![tactic(auto)]

ghost use Rattle.std.specs.Prelude.{◌≤◌};

mod workload;

use method_cache::Method;
use run::{Ran, RunAnswer};
use settings::{Config, Given};
use state::State;
use std::env::FillError;
use std::io::{Result, Write};
use std::rt::Env;
use text::numbers::decimal;

// What is handed in beside the workload's name, and what belongs to the workload: its entry, its method cache, and how many interrupts are
// replayed.
#[derive(Clone, Copy)]
pub struct Setting {
    pub budget: u32,
    pub main: u32,
    pub words: u32,
    pub entry: u32,
    pub method: Method,
    pub records: u32,
}

fn put_code(code: &mut [u8], words: &[u32]) {
    let mut at: u32 = 0;
    for w in words {
        big_endian::write_word(&mut *code, at, *w);
        at = std::num::wrapping_add_u32(at, 4);
    }
}

// A word of the command line.
pub type Text = [u8; 4096];

// Room for 131,072 interrupts.
pub type List = [u8; 1048576];

// The interrupts, one every hundred bundles, of the mat and of the photo cell in turn.
fn put_list(list: &mut List, records: u32) {
    let mut number: u32 = 0;
    let mut at: u32 = 0;
    for i in 0..records {
        number = std::num::wrapping_add_u32(number, 100);
        big_endian::write_word(&mut *list, at, number);
        big_endian::write_word(&mut *list, std::num::wrapping_add_u32(at, 4), 1 + i % 2);
        at = std::num::wrapping_add_u32(at, 8);
    }
}

// The registers in one number: each is exclusive-ored to what came before, turned left by one bit.
fn checksum(registers: [u32; 32]) -> u32 {
    let mut sum: u32 = 0;
    for register in registers.iter() {
        let turned = word::bits::or(
            word::bits::shift_left(sum, 1),
            word::bits::shift_right(sum, 31),
        );
        sum = word::bits::xor(turned, *register);
    }
    sum
}

fn print_answer(rt: &HostRuntime, a: RunAnswer) -> Result<()> {
    match a {
        RunAnswer::Ended => print!(rt; " ended"),
        RunAnswer::Spent => print!(rt; " spent"),
        RunAnswer::Refused(refusal) => print!(rt; " refused {}", refusal.number()),
    }
}

// The method cache's counts are shown where it is on.
fn print_ran(rt: &HostRuntime, r: Ran, on: bool) -> Result<()> {
    let answer = r.answer;
    let state = r.state;
    let registers = state.registers;
    let counts = r.counts;
    print_answer(rt, answer)?;
    print!(rt; " bundles {} cycles {}", counts.bundles, counts.cycles)?;
    print!(rt; " spilled {} filled {}", counts.spilled, counts.filled)?;
    if on {
        print!(rt; " misses {} fetched {}", counts.misses, counts.fetched)?;
    }
    println!(rt; " checksum {:08x}", checksum(registers))
}

// A workload run on what is lent. The stack area is the upper half of main memory.
fn run_workload(
    rt: &HostRuntime,
    s: Setting,
    words: &[u32],
    code: &mut [u8],
    list: &[u8],
    table: &[u8],
    main: &mut [u8],
    local: &mut [u8],
    cache: &mut [u32],
) -> Result<()> {
    let lo = s.main / 8 * 4;
    let hi = s.main / 4 * 4;
    put_code(&mut *code, words);
    let method = s.method;
    let config = Config { lo, hi, method };
    let opened = State::open(&*code, &*main, &*local, &mut *cache, config, s.entry);
    let answer = opened.answer;
    let state = opened.state;
    match answer {
        Err(refusal) => { println!(rt; " open refused {}", refusal.number()) }
        Ok(()) => {
            let given = Given {
                code: &*code,
                list,
                table,
                config,
            };
            let r = run::run(
                state,
                &given,
                &mut *main,
                &mut *local,
                &mut *cache,
                s.budget,
            );
            print_ran(rt, r, method.on)
        }
    }
}

// The parts of the buffers that the setting asks for.
fn cut(
    rt: &HostRuntime,
    s: Setting,
    words: &[u32],
    code: &mut [u8],
    list: &[u8],
    table: &[u8],
    main: &mut [u8],
    local: &mut [u8],
    cache: &mut [u32],
) -> Result<()> {
    let n = words.len().min(code.len() / 4) * 4;
    let m = (s.main as usize).min(main.len());
    let w = (s.words as usize).min(cache.len());
    run_workload(
        rt,
        s,
        words,
        &mut code[..n],
        list,
        table,
        &mut main[..m],
        &mut *local,
        &mut cache[..w],
    )
}

// Main memory and cache have one place more than the greatest that is accepted, so that settings beyond the limits are refused.
fn measure_on(rt: &HostRuntime, name: &str, words: &[u32], s: Setting, list: &[u8]) -> Result<()> {
    let mut code = [0u8; 256];
    let mut main = [0u8; 65537];
    let mut local = [0u8; 1024];
    let mut cache = [0u32; 513];
    print!(rt; "{name}")?;
    cut(
        rt,
        s,
        words,
        &mut code,
        list,
        &workload::TABLE,
        &mut main,
        &mut local,
        &mut cache,
    )
}

fn cut_list(rt: &HostRuntime, name: &str, words: &[u32], s: Setting, list: &List) -> Result<()> {
    let r = (s.records as usize * 8).min(1048576);
    let all = &list[..];
    measure_on(rt, name, words, s, &all[0..r])
}

fn measure(rt: &HostRuntime, name: &str, words: &[u32], s: Setting) -> Result<()> {
    let mut list = [0u8; 1048576];
    put_list(&mut list, s.records);
    cut_list(rt, name, words, s, &list)
}

// Puts a word of the command line into text, and answers its length, 0 where it is too long.
fn put_argument(rt: &HostRuntime, i: usize, text: &mut Text) -> usize
    ensures { result ≤ 4096 }
{
    rt.arg(i, text).unwrap_or(0)
}

// A word of the command line as a number, 0 where it is none.
fn argument(rt: &HostRuntime, i: usize) -> u32 {
    let mut text = [0u8; 4096];
    let n = put_argument(rt, i, &mut text);
    decimal(&text[..n]).unwrap_or(0)
}

// Whether there is a word of the command line.
fn has_argument(rt: &HostRuntime, i: usize) -> bool {
    let mut text = [0u8; 4096];
    !matches!(rt.arg(i, &mut text), Err(FillError::NotPresent))
}

// Whether a workload is asked for, by its name or with all.
fn wanted(asked: &[u8], name: &str) -> bool {
    (asked == b"all".as_slice()) | (asked == name.as_bytes())
}

// The same with a method cache of four blocks and 96 bytes, and an entry behind the first block's size.
fn with_method(s: Setting) -> Setting {
    Setting {
        entry: 4,
        method: Method {
            on: true,
            blocks: 4,
            bytes: 96,
        },
        ..s
    }
}

// The same with an interrupt every hundred bundles.
fn with_interrupts(s: Setting) -> Setting {
    Setting {
        records: 131072,
        ..s
    }
}

// The workloads that are asked for.
fn measure_wanted(rt: &HostRuntime, asked: &[u8], s: Setting) -> Result<()> {
    if wanted(asked, "loop") {
        measure(rt, "loop", &workload::LOOP, s)?;
    }
    if wanted(asked, "calls") {
        measure(rt, "calls", &workload::CALLS, s)?;
    }
    if wanted(asked, "memory") {
        measure(rt, "memory", &workload::MEMORY, s)?;
    }
    if wanted(asked, "products") {
        measure(rt, "products", &workload::PRODUCTS, s)?;
    }
    if wanted(asked, "methods") {
        measure(rt, "methods", &workload::METHODS, with_method(s))?;
    }
    if wanted(asked, "interrupts") {
        measure(rt, "interrupts", &workload::INTERRUPTS, with_interrupts(s))?;
    }
    Ok(())
}

fn main(rt: HostRuntime) -> Result<()> {
    if !has_argument(&rt, 4) | has_argument(&rt, 5) {
        let usage =
            b"usage: speed loop|calls|memory|products|methods|interrupts|all BUDGET MAINLEN W\n";
        return rt.stderr().write_all(usage);
    }
    let s = Setting {
        budget: argument(&rt, 2),
        main: argument(&rt, 3),
        words: argument(&rt, 4),
        entry: 0,
        method: Method {
            on: false,
            blocks: 0,
            bytes: 0,
        },
        records: 0,
    };
    let mut asked = [0u8; 4096];
    let n = put_argument(&rt, 1, &mut asked);
    measure_wanted(&rt, &asked[..n], s)
}
