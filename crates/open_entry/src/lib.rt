// The opening for C, in a library of its own: in the run's archive `write_record` would have two callers, and bundles get slower.
// Numbers and byte slices in, a number out; include/laqemdit.h declares it, docs/C.md tells how it is used.
// Open first: OpenEntry.antt.
#![tactic(auto)]

ghost use Rattle.std.specs.Prelude.{◌≡◌};
ghost use Rattle.settings.specs.Setup.{setup};
ghost use Rattle.entries.specs.Entries.{config_of, called_of, called};
ghost use Rattle.open_entry.specs.OpenEntry.{opened_record};

use answers::Refusal;
use bundle_model::outcome::no_counts;
use entries::numbers::config_of;
use record::writing::{longest, write_record};
use state::State;

// The fresh state goes out as its record. Of code and memories only the lengths count.
#[unsafe(no_mangle)]
pub extern "C" fn laqemdit_open(
    code: &[u8],
    main: &[u8],
    local: &[u8],
    out: &mut [u8],
    entry: u32,
    words: u32,
    lo: u32,
    hi: u32,
    on: u32,
    blocks: u32,
    bytes: u32,
) -> u32
    ensures { called_of result main.now local.now out.new ≡ called (opened_record (setup code.now (config_of lo hi on blocks bytes)) words entry main.now local.now out.old) }
{
    let config = config_of(lo, hi, on, blocks, bytes);
    let w = words as usize;
    let g = config.settings(code, main.len(), local.len(), w);
    if !g.admits() {
        return Refusal::Limits.number();
    }
    if out.len() < longest(w) {
        return Refusal::Record.number();
    }
    let mut cache = [0u32; 512];
    let opened = State::open(code, main, local, &mut cache[0..w], config, entry);
    let answer = opened.answer;
    let state = opened.state;
    match answer {
        Err(refusal) => refusal.number(),
        Ok(()) => {
            write_record(state, no_counts(), &cache[0..w], &mut *out);
            0
        }
    }
}
