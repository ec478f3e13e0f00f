// The description lines that fill a buffer. Where the line is a mistake, a function answers why.
ghost use Rattle.std.specs.Prelude.{◌≡◌};
ghost use Rattle.case_notes.specs.DescriptionLine.{filled, appended, code_line, put_below_copy, memory_word, cache_word, described, described_by, described_read};

use crate::Listed;
use crate::description::give;
use crate::held::hold_bases;
use crate::lists::take_list;
use crate::marked::mark_items;
use crate::replay::give_replay;
use big_endian::write_word;
use case_file::arguments::code_entry;
use case_file::{Line, Reason};
use case_kept::buffers::{Bytes, COPY, Cache, Memory};
use case_kept::clearing::put_in_copy;
use case_kept::kept::{CODE, Kept};
use case_kept::places::{Store, last_byte, note};

// Appends a word to the code, or answers the mistake that there is no room.
#[tactic(auto, unfolding(crate::specs::DescriptionLine::appended))]
fn append_word(kept: &mut Kept, word: u32, code: &mut Bytes) -> Result<(), Reason>
    ensures { filled result kept.new code.new ≡ appended kept.old word code.old }
{
    let n = kept[CODE];
    if 65536 <= n {
        return Err(Reason::TooMuchCode);
    }
    write_word(&mut *code, n as u32, word);
    kept[CODE] = n + 4;
    Ok(())
}

// Appends the words of a code line from a position on. A line has fewer entries than bytes.
fn code_line(kept: &mut Kept, line: &[u8], list: usize, code: &mut Bytes) -> Result<(), Reason>
    ensures { filled result kept.new code.new ≡ code_line line.now list kept.old code.old }
{
    let mut at = list;
    for _ in 0..line.len() {
        let Some((word, next)) = code_entry(line, at)? else {
            return Ok(());
        };
        append_word(&mut *kept, word, &mut *code)?;
        at = next;
    }
    Ok(())
}

// Bytes that no memory has are not written.
#[tactic(auto, unfolding(crate::specs::DescriptionLine::put_below_copy))]
fn write_below_copy(memory: &mut [u8], address: u32, word: u32)
    ensures { memory.new ≡ put_below_copy memory.old address word }
{
    let n = COPY.min(memory.len());
    write_word(&mut memory[..n], address, word);
}

// A word of a memory is put there at once.
#[tactic(auto, unfolding(crate::specs::DescriptionLine::memory_word))]
fn memory_word(
    kept: &mut Kept,
    store: Store,
    address: u32,
    word: u32,
    memory: &mut Memory,
) -> Result<(), Reason>
    ensures { filled result kept.new memory.new ≡ memory_word kept.old store address word memory.old }
{
    write_below_copy(&mut *memory, address, word);
    note(&mut *kept, store, last_byte(address));
    Ok(())
}

#[tactic(auto, unfolding(crate::specs::DescriptionLine::cache_word))]
fn cache_word(kept: &mut Kept, place: u32, word: u32, cache: &mut Cache) -> Result<(), Reason>
    ensures { filled result kept.new cache.new ≡ cache_word kept.old place word cache.old }
{
    put_in_copy(&mut *cache, place as usize, word);
    note(&mut *kept, Store::Cache, place);
    Ok(())
}

// A description line.
#[tactic(auto, unfolding(crate::specs::DescriptionLine::described_by))]
fn describe_line(
    said: Line,
    line: &[u8],
    code: &mut Bytes,
    main: &mut Memory,
    local: &mut Memory,
    cache: &mut Cache,
    kept: &mut Kept,
) -> Result<(), Reason>
    ensures { described result code.new main.new local.new cache.new kept.new ≡ described_by line.now code.old main.old local.old cache.old kept.old said }
{
    match said {
        Line::Code { list } => code_line(&mut *kept, line, list, &mut *code),
        Line::Private { list } => mark_items(&mut *kept, line, list),
        Line::Held { list } => hold_bases(&mut *kept, line, list),
        Line::Record { list } => take_list(&mut *kept, Listed::Record, line, list),
        Line::Replay(r) => give_replay(&mut *kept, r),
        Line::MainWord { address, word } => {
            memory_word(&mut *kept, Store::Main, address, word, &mut *main)
        }
        Line::LocalWord { address, word } => {
            memory_word(&mut *kept, Store::Local, address, word, &mut *local)
        }
        Line::CacheWord { place, word } => cache_word(&mut *kept, place, word, &mut *cache),
        _ => give(&mut *kept, Ok(said)),
    }
}

// The same of what a line was read as: a mistake leaves all as it was.
pub fn describe(
    read: Result<Line, Reason>,
    line: &[u8],
    code: &mut Bytes,
    main: &mut Memory,
    local: &mut Memory,
    cache: &mut Cache,
    kept: &mut Kept,
) -> Result<(), Reason>
    ensures { described result code.new main.new local.new cache.new kept.new ≡ described_read line.now code.old main.old local.old cache.old kept.old read }
{
    match read {
        Ok(said) => describe_line(
            said,
            line,
            &mut *code,
            &mut *main,
            &mut *local,
            &mut *cache,
            &mut *kept,
        ),
        Err(_) => give(&mut *kept, read),
    }
}
