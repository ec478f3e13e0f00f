// One step and a run, from a record to a record.
ghost use Rattle.std.specs.Prelude.{◌≡◌};
ghost use Rattle.settings.specs.Setup.{replaying, setup};
ghost use Rattle.record.specs.Written.{longest_of};
ghost use Rattle.resume_model.specs.Resume.{resumed, restepped};
ghost use Rattle.entries.specs.Entries.{config_of, called_of, called};

use crate::numbers::{config_of, number_of};
use record::writing::longest;
use resume::{restep, resume};
use settings::Given;

// The bytes that the output of a step or a run has to have; 0 where there is no cache of so many words.
#[unsafe(no_mangle)]
pub extern "C" fn laqemdit_longest(words: u32) -> u32
    ensures { result ≡ longest_of words }
{
    longest(words as usize) as u32
}

#[unsafe(no_mangle)]
pub extern "C" fn laqemdit_step(
    stopped: &[u8],
    code: &[u8],
    main: &mut [u8],
    local: &mut [u8],
    out: &mut [u8],
    list: &[u8],
    table: &[u8],
    words: u32,
    lo: u32,
    hi: u32,
    on: u32,
    blocks: u32,
    bytes: u32,
) -> u32
    ensures { called_of result main.new local.new out.new ≡ called (restepped (replaying list.now table.now (setup code.now (config_of lo hi on blocks bytes))) words stopped.now main.old local.old out.old) }
{
    let config = config_of(lo, hi, on, blocks, bytes);
    let given = Given {
        code,
        list,
        table,
        config,
    };
    let r = restep(
        stopped,
        &given,
        &mut *main,
        &mut *local,
        &mut *out,
        words as usize,
    );
    let answer = r.answer;
    number_of(answer)
}

#[unsafe(no_mangle)]
pub extern "C" fn laqemdit_run(
    stopped: &[u8],
    code: &[u8],
    main: &mut [u8],
    local: &mut [u8],
    out: &mut [u8],
    list: &[u8],
    table: &[u8],
    budget: u32,
    words: u32,
    lo: u32,
    hi: u32,
    on: u32,
    blocks: u32,
    bytes: u32,
) -> u32
    ensures { called_of result main.new local.new out.new ≡ called (resumed (replaying list.now table.now (setup code.now (config_of lo hi on blocks bytes))) budget words stopped.now main.old local.old out.old) }
{
    let config = config_of(lo, hi, on, blocks, bytes);
    let given = Given {
        code,
        list,
        table,
        config,
    };
    let r = resume(
        stopped,
        &given,
        &mut *main,
        &mut *local,
        &mut *out,
        words as usize,
        budget,
    );
    let answer = r.answer;
    number_of(answer)
}
