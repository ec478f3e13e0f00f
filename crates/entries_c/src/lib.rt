// The archive of the entries that go on from a record: each export is the function of its name in entries, under the same clauses.
// include/laqemdit.h declares them.
#![tactic(auto)]

ghost use Rattle.std.specs.Prelude.{◌≡◌};
ghost use Rattle.settings.specs.Setup.{replaying, setup};
ghost use Rattle.record.specs.Written.{longest_of};
ghost use Rattle.resume_model.specs.Resume.{resumed, restepped};
ghost use Rattle.entries.specs.Entries.{config_of, called_of, called};

use entries::running;

#[unsafe(no_mangle)]
pub extern "C" fn laqemdit_longest(words: u32) -> u32
    ensures { result ≡ longest_of words }
{
    running::laqemdit_longest(words)
}

#[unsafe(no_mangle)]
pub extern "C" fn laqemdit_step(
    stopped: &[u8],
    code: &[u8],
    main: &mut [u8],
    local: &mut [u8],
    out: &mut [u8],
    list: &[u8],
    table: &[u8],
    words: u32,
    lo: u32,
    hi: u32,
    on: u32,
    blocks: u32,
    bytes: u32,
) -> u32
    ensures { called_of result main.new local.new out.new ≡ called (restepped (replaying list.now table.now (setup code.now (config_of lo hi on blocks bytes))) words stopped.now main.old local.old out.old) }
{
    running::laqemdit_step(
        stopped, code, main, local, out, list, table, words, lo, hi, on, blocks, bytes,
    )
}

#[unsafe(no_mangle)]
pub extern "C" fn laqemdit_run(
    stopped: &[u8],
    code: &[u8],
    main: &mut [u8],
    local: &mut [u8],
    out: &mut [u8],
    list: &[u8],
    table: &[u8],
    budget: u32,
    words: u32,
    lo: u32,
    hi: u32,
    on: u32,
    blocks: u32,
    bytes: u32,
) -> u32
    ensures { called_of result main.new local.new out.new ≡ called (resumed (replaying list.now table.now (setup code.now (config_of lo hi on blocks bytes))) budget words stopped.now main.old local.old out.old) }
{
    running::laqemdit_run(
        stopped, code, main, local, out, list, table, budget, words, lo, hi, on, blocks, bytes,
    )
}
