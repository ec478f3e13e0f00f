// A replay of recorded interrupts: what its list and its table say, and how far it is.
// Open first: specs/Replay.antt.
#![tactic(auto)]

ghost use Rattle.std.specs.Prelude.{◌≡◌};
ghost use Rattle.replay.specs.Replay.{records, handler_at, handler_of, records_ok, replay_ok, due_in, one_more};

use sections::word_at;

// How far a replay is: whether a handler is active, how many records were taken, and how many bundles were done.
#[derive(Clone, Copy)]
pub struct Replay {
    pub active: bool,
    pub place: u32,
    pub done: u32,
}

// The records one by one: the first that is wrong decides.
fn records_ok(list: &[u8]) -> bool
    ensures { result ≡ records_ok list.now (records list.now) 0 0 }
{
    let n = list.len() / 8;
    let mut least = 0;
    for i in 0..n {
        let number = word_at(list, 2 * i);
        let vector = word_at(list, 2 * i + 1);
        if (31 < vector) | (number < least) {
            return false;
        }
        least = number;
    }
    true
}

// Whether 15 lets list and table pass.
pub fn replay_ok(list: &[u8], table: &[u8]) -> bool
    ensures { result ≡ replay_ok list.now table.now }
{
    let lengths = ((list.len() % 8 == 0) & (list.len() / 8 <= 4294967295)) & (table.len() == 128);
    lengths & records_ok(list)
}

// Whether the record at the place may be taken, as far as the replay tells. At the list's end nothing else is looked at.
pub fn is_due(list: &[u8], replay: Replay) -> bool
    ensures { result ≡ due_in list.now replay }
{
    if list.len() / 8 <= replay.place as usize {
        return false;
    }
    let number = word_at(list, 2 * (replay.place as usize));
    (number <= replay.done) & !replay.active
}

// The handler of a vector, and 0 where the table has none.
pub fn handler_at(table: &[u8], vector: u32) -> u32
    ensures { result ≡ handler_at table.now vector }
{
    word_at(table, vector as usize)
}

// The handler of the record at a place.
pub fn handler_of(list: &[u8], table: &[u8], place: u32) -> u32
    ensures { result ≡ handler_of list.now table.now place }
{
    handler_at(table, word_at(list, 2 * (place as usize) + 1))
}

// One bundle more is done.
pub fn one_more(done: u32) -> u32
    ensures { result ≡ one_more done }
{
    if done < 4294967295 {
        return done + 1;
    }
    done
}
