// The lines on a replay, and its list and table as bytes.
ghost use Rattle.std.specs.Prelude.{◌≡◌, ◌≤◌};
ghost use Rattle.case_notes.specs.Description.{noted};
ghost use Rattle.case_notes.specs.Replay.{number_behind, interrupt, said, of_replay, list_length, laid_list, table_length, laid_table};

use crate::description::{give_once, give_one_of_32};
use crate::lists::append;
use crate::record::{handed_in, lay_entries, lay_words, length_handed_in};
use case_file::{Reason, ReplayLine};
use case_kept::buffers::{LIST_ROOM, TABLE_ROOM};
use case_kept::kept::{
    ACTIVE, DONE, INTERRUPTS, Kept, LIST_BYTES, PLACE, REPLAYS, TABLE, TABLE_BYTES,
};

// Two for each of 4,096 interrupts.
const MOST_NUMBERS: u64 = 8192;

// One number more of the list.
fn list_number(kept: &mut Kept, n: u32) -> Result<(), Reason>
    ensures { noted result kept.new ≡ number_behind n kept.old }
{
    append(
        &mut *kept,
        INTERRUPTS,
        MOST_NUMBERS,
        Reason::TooManyInterrupts,
        n,
    )
}

#[tactic(auto, unfolding(crate::specs::Replay::interrupt))]
fn list_interrupt(kept: &mut Kept, number: u32, vector: u32) -> Result<(), Reason>
    ensures { noted result kept.new ≡ interrupt kept.old number vector }
{
    list_number(&mut *kept, number)?;
    list_number(&mut *kept, vector)
}

#[tactic(auto, unfolding(crate::specs::Replay::said))]
fn take_said(kept: &mut Kept, r: ReplayLine) -> Result<(), Reason>
    ensures { noted result kept.new ≡ said r kept.old }
{
    match r {
        ReplayLine::Interrupt { number, vector } => list_interrupt(&mut *kept, number, vector),
        ReplayLine::Handler { vector, address } => {
            give_one_of_32(&mut *kept, TABLE, vector, address)
        }
        ReplayLine::ListBytes(n) => give_once(&mut *kept, LIST_BYTES, n),
        ReplayLine::TableBytes(n) => give_once(&mut *kept, TABLE_BYTES, n),
        ReplayLine::Active => give_once(&mut *kept, ACTIVE, 1),
        ReplayLine::Place(n) => give_once(&mut *kept, PLACE, n),
        ReplayLine::Done(n) => give_once(&mut *kept, DONE, n),
    }
}

pub(crate) fn give_replay(kept: &mut Kept, r: ReplayLine) -> Result<(), Reason>
    ensures { noted result kept.new ≡ of_replay r kept.old }
{
    kept[REPLAYS] = 1;
    take_said(&mut *kept, r)
}

// How many bytes of the list are handed in: where no line says it, 8 for each record.
pub fn list_length(kept: &Kept) -> usize
    ensures { (result ≤ 65536) × (result ≡ list_length kept.now) }
{
    length_handed_in(
        kept,
        INTERRUPTS,
        MOST_NUMBERS as usize,
        LIST_BYTES,
        LIST_ROOM,
    )
}

// The list's records are put at the front of the bytes. Of an empty list nothing is.
pub fn lay_list(kept: &Kept, bytes: &mut [u8])
    ensures { bytes.new ≡ laid_list kept.now bytes.old }
{
    lay_entries(kept, INTERRUPTS, MOST_NUMBERS as usize, &mut *bytes);
}

// How many bytes of the table are handed in: where no line says it, 4 for each handler.
pub fn table_length(kept: &Kept) -> usize
    ensures { (result ≤ 256) × (result ≡ table_length kept.now) }
{
    handed_in(kept, TABLE_BYTES, TABLE_ROOM, 128)
}

// The addresses of the 32 handlers are put at the front of the bytes.
pub fn lay_table(kept: &Kept, bytes: &mut [u8])
    ensures { bytes.new ≡ laid_table kept.now bytes.old }
{
    lay_words(kept, TABLE, 32, &mut *bytes);
}
