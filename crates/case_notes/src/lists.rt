// The lists of a case among the kept numbers: how many entries one has, and behind that the entries.
ghost use Rattle.std.specs.Prelude.{◌≡◌};
ghost use Rattle.case_notes.specs.Description.{noted};
ghost use Rattle.case_notes.specs.Lists.{entry_of, behind, more, taken};

use crate::Listed;
use case_file::Reason;
use case_file::arguments::{code_entry, held_entry};
use case_kept::kept::{HELD, Kept, RECORD, keep, keep_after, number};

pub(crate) const MOST_HELD: u64 = 16;

pub(crate) const MOST_WORDS: u64 = 2048;

// The next entry of a line that lists such.
fn next_entry(l: Listed, line: &[u8], at: usize) -> Result<Option<(u32, usize)>, Reason>
    ensures { result ≡ entry_of l line.now at }
{
    match l {
        Listed::Held => held_entry(line, at),
        Listed::Record => code_entry(line, at),
    }
}

// One entry more behind those of the list at an index, or the mistake that it has the most already.
#[tactic(auto, unfolding(crate::specs::Lists::behind))]
pub(crate) fn append(
    kept: &mut Kept,
    first: usize,
    most: u64,
    full: Reason,
    n: u32,
) -> Result<(), Reason>
    ensures { noted result kept.new ≡ behind kept.old first most full n }
{
    let count = number(&*kept, first);
    if most <= count {
        return Err(full);
    }
    keep_after(&mut *kept, first, (count + 1) as usize, n as u64);
    keep(&mut *kept, first, count + 1);
    Ok(())
}

fn take_one(kept: &mut Kept, l: Listed, n: u32) -> Result<(), Reason>
    ensures { noted result kept.new ≡ more l kept.old n }
{
    match l {
        Listed::Held => append(&mut *kept, HELD, MOST_HELD, Reason::TooManyHeld, n),
        Listed::Record => append(&mut *kept, RECORD, MOST_WORDS, Reason::TooMuchRecord, n),
    }
}

// The entries of a line from a position on. A line has fewer entries than bytes.
pub(crate) fn take_list(kept: &mut Kept, l: Listed, line: &[u8], list: usize) -> Result<(), Reason>
    ensures { noted result kept.new ≡ taken l line.now list kept.old }
{
    let mut at = list;
    for _ in 0..line.len() {
        let Some((entry, next)) = next_entry(l, line, at)? else {
            return Ok(());
        };
        take_one(&mut *kept, l, entry)?;
        at = next;
    }
    Ok(())
}
