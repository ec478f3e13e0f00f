// The archive of the check: the export is the function of its name in check_entry, under the same clauses. include/laqemdit.h declares it.
#![tactic(auto)]

ghost use Rattle.settings.specs.Setup.{setup};
ghost use Rattle.single_path.specs.Check.{checked};
ghost use Rattle.entries.specs.Entries.{config_of};
ghost use Rattle.check_entry.specs.CheckEntry.{marking_of, Told};

use check_entry::CheckedCode;

#[unsafe(no_mangle)]
pub extern "C" fn laqemdit_check(
    code: &[u8],
    registers: u32,
    predicates: u32,
    others: u32,
    main: usize,
    local: usize,
    words: u32,
    lo: u32,
    hi: u32,
    on: u32,
    blocks: u32,
    bytes: u32,
) -> CheckedCode
    ensures { Told (marking_of registers predicates others) code.now (checked (setup code.now (config_of lo hi on blocks bytes)) main local words (marking_of registers predicates others)) result }
{
    check_entry::laqemdit_check(
        code, registers, predicates, others, main, local, words, lo, hi, on, blocks, bytes,
    )
}
