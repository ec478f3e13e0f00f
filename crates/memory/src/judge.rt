// The refusals of an access, judged before anything is written.
ghost use Rattle.std.specs.Prelude.{◌≡◌, List, ℕ, ◌<◌};
ghost use Rattle.answers.specs.Test.{verdict};
ghost use Rattle.settings.specs.Setup.{setup_of};
ghost use Rattle.memory.specs.Access.{is_stack, main_open, main_readable, main_writable, access_open, access_tests, load_tests, store_tests};

use crate::width::{load_size, store_size};
use answers::{Refusal, Verdict};
use isa::{AccessKind, LoadWidth, StoreWidth};
use settings::Settings;

// Whether an access of n bytes lies wholly inside main memory and touches no byte of the stack.
#[tactic(auto, unfolding(crate::specs::Access::main_open, settings::specs::Setup::touches))]
fn main_open(g: Settings, a: u32, n: u32) -> bool
    ensures { (code : List ℕ) → result ≡ main_open g (setup_of code g) a n }
{
    let end = (a as usize) + (n as usize);
    let lo = g.lo;
    let hi = g.hi;
    (end <= g.main) & !((lo < hi) & ((a < hi) & ((lo as usize) < end)))
}

fn main_readable(g: Settings, a: u32, n: u32) -> bool
    ensures { (code : List ℕ) → result ≡ main_readable g (setup_of code g) a n }
{
    main_open(g, a, n)
}

fn main_writable(g: Settings, a: u32, n: u32) -> bool
    ensures { (code : List ℕ) → result ≡ main_writable g (setup_of code g) a n }
{
    main_open(g, a, n)
}

// Whether an access is open; `main` tells it of main memory.
#[tactic(auto, unfolding(crate::specs::Access::access_open))]
fn access_open(main: bool, g: Settings, st: u32, ss: u32, kind: AccessKind, a: u32, n: u32) -> bool
    ensures { result ≡ access_open main g st ss kind a n }
{
    let end = (a as usize) + (n as usize);
    match kind {
        AccessKind::Stack => (st <= a) & (end <= (ss as usize)),
        AccessKind::Local => end <= g.local,
        AccessKind::Cached => main,
        AccessKind::Main => main,
    }
}

fn is_stack(kind: AccessKind) -> bool
    ensures { result ≡ is_stack kind }
{
    match kind {
        AccessKind::Stack => true,
        AccessKind::Local => false,
        AccessKind::Cached => false,
        AccessKind::Main => false,
    }
}

// 5, 7 and 6 of an access of n bytes.
#[tactic(auto, unfolding(answers::specs::Test::verdict))]
fn judge(main: bool, g: Settings, st: u32, ss: u32, kind: AccessKind, a: u32, n: u32) -> Verdict
    requires { 0 < n }
    ensures { result ≡ verdict (access_tests main g st ss kind a n) }
{
    if a % n != 0 {
        return Err(Refusal::Misaligned);
    }
    let bad = stack_cache::window::bad_window(g.words, st, ss);
    if is_stack(kind) & bad {
        return Err(Refusal::Window);
    }
    if access_open(main, g, st, ss, kind, a, n) {
        return Ok(());
    }
    Err(Refusal::AccessOutside)
}

pub fn judge_load(
    g: Settings,
    st: u32,
    ss: u32,
    kind: AccessKind,
    width: LoadWidth,
    a: u32,
) -> Verdict
    ensures { (code : List ℕ) → result ≡ verdict (load_tests g (setup_of code g) st ss kind width a) }
{
    let n = load_size(width);
    judge(main_readable(g, a, n), g, st, ss, kind, a, n)
}

pub fn judge_store(
    g: Settings,
    st: u32,
    ss: u32,
    kind: AccessKind,
    width: StoreWidth,
    a: u32,
) -> Verdict
    ensures { (code : List ℕ) → result ≡ verdict (store_tests g (setup_of code g) st ss kind width a) }
{
    let n = store_size(width);
    judge(main_writable(g, a, n), g, st, ss, kind, a, n)
}
