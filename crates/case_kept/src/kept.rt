// The numbers that are kept from line to line, in one lent list, each at an index of its own: where the file stands, what the description lines of the case
// say, the case's state, its marking, and the places that it names.
ghost use Rattle.std.specs.Prelude.{◌≡◌, ◌+◌};
ghost use Rattle.case_kept.specs.Kept.{kept_number, kept_word, is_set, put, flag as flagOf, kept_flags, forgotten};

use std::array;

pub const ALL: usize = 160600;

pub type Kept = [u64; 160600];

// Lengths are in bytes, WORDS is the number of stack cache words.
pub const CODE: usize = 0;

pub const MAIN: usize = 1;

pub const LOCAL: usize = 2;

pub const WORDS: usize = 3;

pub const LO: usize = 4;

pub const HI: usize = 5;

pub const ENTRY: usize = 6;

// The state: what the case puts into it, and from the opening on all of it.
pub const FETCH: usize = 7;

pub const BASE: usize = 8;

// Eight special registers, in the order of the report.
pub const SPECIALS: usize = 9;

// The kind of the waiting transfer, and at TARGET the numbers of its line: target, base where it has one, and wait.
pub const TRANSFER: usize = 17;

// The kinds, as numbers, since they stand in the lent list of numbers (no heap). Where no transfer waits, the kind is 0.
pub const BR: u64 = 1;

pub const CALL: u64 = 2;

pub const BLOCK: u64 = 3;

pub const XRET: u64 = 4;

pub const TARGET: usize = 18;

// Whether a load waits, then its register and its value.
pub const LOAD: usize = 21;

pub const LOADED: usize = 22;

pub const REGISTERS: usize = 24;

pub const PREDICATES: usize = 56;

// GIVEN + N is 1 if a line gave the number at N.
pub const GIVEN: usize = 64;

// The marking: 32 registers, 8 predicates and five others, each 1 if it is private.
pub const PRIVATE_REGISTERS: usize = 128;

pub const PRIVATE_PREDICATES: usize = 160;

pub const PRIVATE_SL: usize = 168;

pub const PRIVATE_SH: usize = 169;

pub const PRIVATE_MAIN: usize = 170;

pub const PRIVATE_LOCAL: usize = 171;

pub const PRIVATE_STACK: usize = 172;

// How far the noted places of main memory, local memory and cache reach, and how many are noted.
pub const REACH: usize = 176;

pub const NOTED: usize = 179;

// How many products are under way, and at PRODUCT three numbers of each, by rising wait: wait, low and high word.
pub const PRODUCTS: usize = 180;

pub const PRODUCT: usize = 181;

// Whether a line gives the method cache, and its capacity.
pub const METHOD: usize = 187;

pub const BLOCKS: usize = 188;

pub const BYTES: usize = 189;

// Whether a line gives blocks that are held; how many are, and behind that 16 bases, the oldest first.
pub const HOLDS: usize = 190;

pub const HELD: usize = 191;

// How many bytes of the record are handed in, if a line gives that; GIVEN + RECORD_BYTES, index 272, is then 1.
pub const RECORD_BYTES: usize = 208;

// The six counts of the last run or step, in the order of the report.
pub const COUNTS: usize = 209;

// Whether a line says something of the replay. The numbers of the state behind it are changed by operations, and do not tell that.
pub const REPLAYS: usize = 215;

// Whether a handler is active, the list place, and the bundles done in the replay.
pub const ACTIVE: usize = 216;

pub const PLACE: usize = 217;

pub const DONE: usize = 218;

// How many bytes of the list and of the table are handed in, if a line gives that. Where GIVEN tells it of ACTIVE to TABLE_BYTES, from
// index 280 on, nothing else stands.
pub const LIST_BYTES: usize = 219;

pub const TABLE_BYTES: usize = 220;

// The addresses of the 32 handlers.
pub const TABLE: usize = 224;

// How many words the record has, and behind that up to 2,048 words. Words past that number are never read, so they are not cleared.
pub const RECORD: usize = 300;

// The case's numbers that are cleared end here. The line and the phase outlast a case.
pub const CASE_END: usize = 301;

pub const LINE: usize = 2350;

pub const PHASE: usize = 2351;

// The notes, three numbers each. There is room in front of them for numbers to come.
pub const NOTES: usize = 2400;

// How many numbers the list of interrupts has, two for each record, and behind that up to 8,192 numbers. This one is cleared for a case,
// and the numbers past it are never read.
pub const INTERRUPTS: usize = 152400;

// The phases, as numbers of the lent list too. No case has started; a case is described; its state is open; its opening was refused;
// the report has ended; its places are judged, and its state is not yet open.
pub const NO_CASE: u64 = 0;

pub const DESCRIBED: u64 = 1;

pub const OPEN: u64 = 2;

pub const REFUSED: u64 = 3;

pub const STOPPED: u64 = 4;

pub const JUDGED: u64 = 5;

pub fn number(kept: &Kept, index: usize) -> u64
    ensures { result ≡ kept_number kept.now index }
{
    if index < ALL {
        return kept[index];
    }
    0
}

pub fn word(kept: &Kept, index: usize) -> u32
    ensures { result ≡ kept_word kept.now index }
{
    (number(kept, index) % 4294967296) as u32
}

pub fn is_set(kept: &Kept, index: usize) -> bool
    ensures { result ≡ is_set kept.now index }
{
    number(kept, index) != 0
}

// The same i further on, where there may be nothing.
pub fn is_set_after(kept: &Kept, first: usize, i: usize) -> bool
    ensures { result ≡ is_set kept.now (first + i) }
{
    if ALL <= first {
        return false;
    }
    if ALL <= i {
        return false;
    }
    is_set(kept, first + i)
}

pub fn keep(kept: &mut Kept, index: usize, n: u64)
    ensures { kept.new ≡ put kept.old index n }
{
    if index < ALL {
        kept[index] = n;
    }
}

// The same i further on, where there may be nothing.
pub fn keep_after(kept: &mut Kept, first: usize, i: usize, n: u64)
    ensures { kept.new ≡ put kept.old (first + i) n }
{
    if ALL <= first {
        return;
    }
    if ALL <= i {
        return;
    }
    keep(&mut *kept, first + i, n);
}

pub fn keep_word(kept: &mut Kept, index: usize, w: u32)
    ensures { kept.new ≡ put kept.old index w }
{
    keep(&mut *kept, index, w as u64);
}

pub fn keep_flag(kept: &mut Kept, index: usize, flag: bool)
    ensures { kept.new ≡ put kept.old index (flagOf flag) }
{
    keep(&mut *kept, index, u64::from(flag));
}

// So many flags from an index on.
#[tactic(auto, using(crate::specs::KeptLaws::from_fn_up_to, crate::specs::Kept::is_set, std::proofs::Common::rules))]
pub fn flags_of<const N: usize>(kept: &Kept, first: usize) -> [bool; N]
    ensures { result ≡ kept_flags N kept.now first }
{
    array::from_fn(|i| is_set_after(kept, first, i))
}

// A case that nothing is said of: 16 words of stack cache, and p0 is true.
pub fn forget_case(kept: &mut Kept)
    ensures { kept.new ≡ forgotten kept.old }
{
    kept[..CASE_END].fill(0);
    kept[WORDS] = 16;
    kept[PREDICATES] = 1;
    kept[INTERRUPTS] = 0;
}
