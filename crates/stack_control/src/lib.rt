// What a stack instruction is to move, judged before anything moves. W may be any number here.
#![tactic(auto)]

ghost use Rattle.std.specs.Prelude.{◌≡◌};
ghost use Rattle.stack_cache.specs.Stack.{planned};
ghost use Rattle.stack_cache.specs.Count.{Window, inside};
ghost use Rattle.stack_cache.specs.declared.StackControl.TheVariants.{Sres, Sens, Sfree, Sspill};

use answers::Refusal;
use stack_cache::window::bad_window;
use stack_cache::{Plan, StackCache, StackControl};

// Whether the words from an address up lie within the stack area, by the two ends of their range.
fn inside(lo: u32, hi: u32, from: u32, words: u32) -> bool
    ensures { result ≡ inside lo hi from words }
{
    if words == 0 {
        return true;
    }
    (lo <= from) & ((from as u64) + 4 * (words as u64) <= (hi as u64))
}

// sres: all between the new st and ss that is more than W words is spilled.
fn sres(w: u32, lo: u32, hi: u32, st: u32, ss: u32, n: u32) -> Result<Plan, Refusal>
    requires { Window w st ss }
    ensures { result ≡ planned Sres w lo hi st ss n }
{
    if w < n {
        return Err(Refusal::Window);
    }
    if (st as u64) < 4 * (n as u64) {
        return Err(Refusal::Window);
    }
    let top = st - 4 * n;
    let spilled = ((ss - top) as u64).saturating_sub(4 * (w as u64)) as u32 / 4;
    let end = ss - 4 * spilled;
    if inside(lo, hi, end, spilled) {
        return Ok(Plan {
            st: top,
            ss: end,
            spilled,
            filled: 0,
        });
    }
    Err(Refusal::MoveOutside)
}

// sens: what the window lacks of n words is filled.
fn sens(w: u32, lo: u32, hi: u32, st: u32, ss: u32, n: u32) -> Result<Plan, Refusal>
    requires { Window w st ss }
    ensures { result ≡ planned Sens w lo hi st ss n }
{
    if w < n {
        return Err(Refusal::Window);
    }
    let filled = n.saturating_sub((ss - st) / 4);
    if inside(lo, hi, ss, filled) {
        return Ok(Plan {
            st,
            ss: ss + 4 * filled,
            spilled: 0,
            filled,
        });
    }
    Err(Refusal::MoveOutside)
}

// sfree: the window loses n words at its lower end, and is empty where it had no more.
fn sfree(w: u32, lo: u32, hi: u32, st: u32, ss: u32, n: u32) -> Result<Plan, Refusal>
    requires { Window w st ss }
    ensures { result ≡ planned Sfree w lo hi st ss n }
{
    let sum = (st as u64) + 4 * (n as u64);
    if 0x1_0000_0000 <= sum {
        return Err(Refusal::Window);
    }
    let top = sum as u32;
    if ss < top {
        return Ok(Plan {
            st: top,
            ss: top,
            spilled: 0,
            filled: 0,
        });
    }
    Ok(Plan {
        st: top,
        ss,
        spilled: 0,
        filled: 0,
    })
}

// sspill: n words of the window, or all that it has, are spilled.
fn sspill(w: u32, lo: u32, hi: u32, st: u32, ss: u32, n: u32) -> Result<Plan, Refusal>
    requires { Window w st ss }
    ensures { result ≡ planned Sspill w lo hi st ss n }
{
    let spilled = n.min((ss - st) / 4);
    let end = ss - 4 * spilled;
    if inside(lo, hi, end, spilled) {
        return Ok(Plan {
            st,
            ss: end,
            spilled,
            filled: 0,
        });
    }
    Err(Refusal::MoveOutside)
}

// Where st and ss will be after a stack instruction of n words, and how many words move, or the refusal.
pub fn plan(
    stack: StackCache,
    control: StackControl,
    lo: u32,
    hi: u32,
    st: u32,
    ss: u32,
    n: u32,
) -> Result<Plan, Refusal>
    ensures { result ≡ planned control stack.words lo hi st ss n }
{
    let w = stack.words;
    if bad_window(w as usize, st, ss) {
        return Err(Refusal::Window);
    }
    match control {
        StackControl::Sres => sres(w, lo, hi, st, ss, n),
        StackControl::Sens => sens(w, lo, hi, st, ss, n),
        StackControl::Sfree => sfree(w, lo, hi, st, ss, n),
        StackControl::Sspill => sspill(w, lo, hi, st, ss, n),
    }
}
