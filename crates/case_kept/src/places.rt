// The places that a case names in its memories and in its stack cache. Their lines may come before those that give the lengths,
// so they are noted and judged at the first operation. Only a place further out than all before it can be the first mistake.
ghost use Rattle.std.specs.Prelude.{◌≡◌};
ghost use Rattle.case_kept.specs.Places.{last_byte, reach_index, length_index, note_if_room, note_place, first_outside};

use crate::kept::{Kept, LINE, LOCAL, MAIN, NOTED, NOTES, REACH, WORDS, keep, number};

// The memories that have places.
#[derive(Clone, Copy, PartialEq, Eq, Debug)]
pub enum Store {
    Main,
    Local,
    Cache,
}

// More than the lines of a file of 1 MiB can name, each place further out than all before it in its store.
const ROOM: u64 = 50000;

// The last byte of the word at an address of a memory, or one that no memory has.
#[tactic(auto, unfolding(crate::specs::Places::last_byte))]
pub fn last_byte(address: u32) -> u32
    ensures { result ≡ last_byte address }
{
    if address % 4 != 0 {
        return 4294967295;
    }
    if 65532 < address {
        return 4294967295;
    }
    address + 3
}

// Where it is kept how far the places of a store reach.
pub fn reach_index(store: Store) -> usize
    ensures { result ≡ reach_index store }
{
    match store {
        Store::Main => REACH,
        Store::Local => REACH + 1,
        Store::Cache => REACH + 2,
    }
}

// Where the length of a store is kept.
fn length_index(store: Store) -> usize
    ensures { result ≡ length_index store }
{
    match store {
        Store::Main => MAIN,
        Store::Local => LOCAL,
        Store::Cache => WORDS,
    }
}

// A place is noted as where its store's length is kept, its last byte or word, and its line, if there is room.
fn note_if_room(kept: &mut Kept, store: Store, last: u32)
    ensures { kept.new ≡ note_if_room kept.old store last }
{
    let n = kept[NOTED];
    if ROOM <= n {
        return;
    }
    let line = kept[LINE];
    let length = length_index(store) as u64;
    let at = NOTES + 3 * (n as usize);
    kept[at] = length;
    kept[at + 1] = last as u64;
    kept[at + 2] = line;
    kept[NOTED] = n + 1;
}

// A place that does not reach further than those before it need not be noted.
#[tactic(auto, unfolding(crate::specs::Places::note_place))]
pub fn note(kept: &mut Kept, store: Store, last: u32)
    ensures { kept.new ≡ note_place kept.old store last }
{
    let end = (last as u64) + 1;
    let reach = reach_index(store);
    if end <= number(&*kept, reach) {
        return;
    }
    keep(&mut *kept, reach, end);
    note_if_room(&mut *kept, store, last);
}

// The line of the first noted place that lies outside.
#[tactic(auto, using(crate::specs::PlacesLaws::outside_some, crate::specs::PlacesLaws::outside_none), unfolding(crate::specs::Places::first_outside))]
pub fn first_outside(kept: &Kept) -> Option<u64>
    ensures { result ≡ first_outside kept.now }
{
    for n in 0..number(kept, NOTED).min(ROOM) as usize {
        let at = NOTES + 3 * n;
        let length = number(kept, at) as usize;
        if number(kept, length) <= number(kept, at + 1) {
            return Some(number(kept, at + 2));
        }
    }
    None
}
