// The record of a case as bytes, and how words and lengths of what is handed in are told.
ghost use Rattle.std.specs.Prelude.{◌≡◌, ◌+◌, ◌*◌, ◌≤◌, ◌<◌};
ghost use Rattle.case_kept.specs.Indices.{ALL, RECORD};
ghost use Rattle.case_notes.specs.Record.{entries, record_words, record_length, handed_in, laid};

use crate::description::is_given;
use crate::lists::MOST_WORDS;
use big_endian::write_word;
use case_kept::buffers::RECORD_ROOM;
use case_kept::kept::{Kept, RECORD, RECORD_BYTES, number, word};

// How many entries the list at an index has.
fn entries(kept: &Kept, first: usize, most: usize) -> usize
    ensures { (result ≤ most) × (result ≡ entries kept.now first most) }
{
    (number(kept, first) as usize).min(most)
}

// How many bytes are handed in: where no line says it, the others.
#[tactic(auto, unfolding(crate::specs::Record::handed_in))]
pub(crate) fn handed_in(kept: &Kept, index: usize, most: usize, others: usize) -> usize
    requires { others ≤ most }
    ensures { (result ≤ most) × (result ≡ handed_in kept.now index most others) }
{
    if is_given(kept, index) {
        return (word(kept, index) as usize).min(most);
    }
    others
}

// The n words from an index on are put at the front of the bytes.
pub(crate) fn lay_words(kept: &Kept, first: usize, n: usize, bytes: &mut [u8])
    requires { (first ≤ ALL) × (n ≤ 8192) }
    ensures { bytes.new ≡ laid first n kept.now bytes.old }
{
    for i in 0..n {
        write_word(&mut *bytes, (4 * i) as u32, word(kept, first + i));
    }
}

// The same of the list at an index, whose entries are words.
pub(crate) fn length_handed_in(
    kept: &Kept,
    first: usize,
    most: usize,
    index: usize,
    room: usize,
) -> usize
    requires { (4 * most ≤ room) × (room ≤ 65536) }
    ensures { (result ≤ room) × (result ≡ handed_in kept.now index room (4 * entries kept.now first most)) }
{
    let n = entries(kept, first, most);
    handed_in(kept, index, room, 4 * n)
}

pub(crate) fn lay_entries(kept: &Kept, first: usize, most: usize, bytes: &mut [u8])
    requires { (first < ALL) × (most ≤ 8192) }
    ensures { bytes.new ≡ laid (first + 1) (entries kept.now first most) kept.now bytes.old }
{
    let n = entries(kept, first, most);
    lay_words(kept, first + 1, n, &mut *bytes);
}

// Where no line says how many bytes of the record are handed in, it is 4 for each word.
pub fn record_length(kept: &Kept) -> usize
    ensures { (result ≤ 8192) × (result ≡ record_length kept.now) }
{
    length_handed_in(kept, RECORD, MOST_WORDS as usize, RECORD_BYTES, RECORD_ROOM)
}

// The record's words are put at the front of the bytes.
pub fn lay_record(kept: &Kept, bytes: &mut [u8])
    ensures { bytes.new ≡ laid (RECORD + 1) (record_words kept.now) kept.now bytes.old }
{
    lay_entries(kept, RECORD, MOST_WORDS as usize, &mut *bytes);
}
