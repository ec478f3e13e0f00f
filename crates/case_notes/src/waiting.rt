// What waits in a case, among the kept numbers.
ghost use Rattle.std.specs.Prelude.{◌≡◌};
ghost use Rattle.case_notes.specs.Waiting.{with_transfer, with_load, with_product, with_replay};

use case_kept::kept::{
    ACTIVE, DONE, Kept, LOAD, LOADED, PLACE, TARGET, TRANSFER, keep, keep_after, keep_flag,
};

// A waiting transfer by the number of its kind, with the numbers of its line.
pub fn keep_transfer(kept: &mut Kept, kind: u64, a: u32, b: u32, c: u32)
    ensures { kept.new ≡ with_transfer kept.old kind a b c }
{
    kept[TRANSFER] = kind;
    kept[TARGET] = a as u64;
    kept[TARGET + 1] = b as u64;
    kept[TARGET + 2] = c as u64;
}

pub fn keep_load(kept: &mut Kept, register: u32, value: u32)
    ensures { kept.new ≡ with_load kept.old register value }
{
    kept[LOAD] = 1;
    kept[LOADED] = register as u64;
    kept[LOADED + 1] = value as u64;
}

// The three numbers of a product under way, from an index on.
pub fn keep_product(kept: &mut Kept, first: usize, wait: u64, low: u64, high: u64)
    ensures { kept.new ≡ with_product kept.old first wait low high }
{
    keep(&mut *kept, first, wait);
    keep_after(&mut *kept, first, 1, low);
    keep_after(&mut *kept, first, 2, high);
}

// What a state has of a replay.
pub fn keep_replay(kept: &mut Kept, active: bool, place: u32, done: u32)
    ensures { kept.new ≡ with_replay kept.old active place done }
{
    keep_flag(&mut *kept, ACTIVE, active);
    kept[PLACE] = place as u64;
    kept[DONE] = done as u64;
}
