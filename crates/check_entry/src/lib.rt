// The check for C, in a library of its own, so that a run need not share the decoder with it (docs/DECISIONS.md). include/laqemdit.h declares it,
// docs/C.md tells how it is used.
#![tactic(auto)]

ghost use Rattle.settings.specs.Setup.{setup};
ghost use Rattle.single_path.specs.Check.{checked};
ghost use Rattle.entries.specs.Entries.{config_of};
ghost use Rattle.check_entry.specs.CheckEntry.{marking_of, Told};

use crate::numbers::{marking_of, told};
use entries::numbers::config_of;
use single_path::check;

mod numbers;

// What the check tells: its answer, the bundle's address, and of refusal 9 the letter of a broken rule.
#[repr(C)]
#[derive(Clone, Copy)]
pub struct CheckedCode {
    pub answer: u32,
    pub address: u32,
    pub rule: u32,
}

#[unsafe(no_mangle)]
pub extern "C" fn laqemdit_check(
    code: &[u8],
    registers: u32,
    predicates: u32,
    others: u32,
    main: usize,
    local: usize,
    words: u32,
    lo: u32,
    hi: u32,
    on: u32,
    blocks: u32,
    bytes: u32,
) -> CheckedCode
    ensures { Told (marking_of registers predicates others) code.now (checked (setup code.now (config_of lo hi on blocks bytes)) main local words (marking_of registers predicates others)) result }
{
    let config = config_of(lo, hi, on, blocks, bytes);
    let marking = marking_of(registers, predicates, others);
    let c = check(code, main, local, words as usize, config, marking);
    told(c)
}
