// The archive of the opening: the export is the function of its name in open_entry, under the same clauses. include/laqemdit.h declares it.
#![tactic(auto)]

ghost use Rattle.std.specs.Prelude.{◌≡◌};
ghost use Rattle.settings.specs.Setup.{setup};
ghost use Rattle.entries.specs.Entries.{config_of, called_of, called};
ghost use Rattle.open_entry.specs.OpenEntry.{opened_record};

#[unsafe(no_mangle)]
pub extern "C" fn laqemdit_open(
    code: &[u8],
    main: &[u8],
    local: &[u8],
    out: &mut [u8],
    entry: u32,
    words: u32,
    lo: u32,
    hi: u32,
    on: u32,
    blocks: u32,
    bytes: u32,
) -> u32
    ensures { called_of result main.now local.now out.new ≡ called (opened_record (setup code.now (config_of lo hi on blocks bytes)) words entry main.now local.now out.old) }
{
    open_entry::laqemdit_open(
        code, main, local, out, entry, words, lo, hi, on, blocks, bytes,
    )
}
