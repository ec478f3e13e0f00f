// The marking that a case describes, among the kept numbers.
ghost use Rattle.std.specs.Prelude.{◌≡◌};
ghost use Rattle.case_notes.specs.Description.{noted};
ghost use Rattle.case_notes.specs.Marking.{with_register, with_predicate, marked, mark_items, marking_of};

use case_file::Reason;
use case_file::arguments::private_entry;
use case_kept::kept::{
    Kept, PRIVATE_LOCAL, PRIVATE_MAIN, PRIVATE_PREDICATES, PRIVATE_REGISTERS, PRIVATE_SH,
    PRIVATE_SL, PRIVATE_STACK, flags_of, is_set, keep,
};
use case_words::Item;
use marking::Marking;

fn mark_register(kept: &mut Kept, r: u32)
    ensures { kept.new ≡ with_register kept.old r }
{
    if r < 32 {
        keep(&mut *kept, PRIVATE_REGISTERS + (r as usize), 1);
    }
}

fn mark_predicate(kept: &mut Kept, p: u32)
    ensures { kept.new ≡ with_predicate kept.old p }
{
    if p < 8 {
        keep(&mut *kept, PRIVATE_PREDICATES + (p as usize), 1);
    }
}

// One more private item.
fn mark(kept: &mut Kept, item: Item)
    ensures { kept.new ≡ marked kept.old item }
{
    match item {
        Item::Register(r) => mark_register(&mut *kept, r),
        Item::Predicate(p) => mark_predicate(&mut *kept, p),
        Item::Sl => kept[PRIVATE_SL] = 1,
        Item::Sh => kept[PRIVATE_SH] = 1,
        Item::Main => kept[PRIVATE_MAIN] = 1,
        Item::Local => kept[PRIVATE_LOCAL] = 1,
        Item::Stack => kept[PRIVATE_STACK] = 1,
    }
}

// The items of a private line from a position on, and whether one is a mistake. A line has fewer entries than bytes.
pub fn mark_items(kept: &mut Kept, line: &[u8], list: usize) -> Result<(), Reason>
    ensures { noted result kept.new ≡ mark_items line.now list kept.old }
{
    let mut at = list;
    for _ in 0..line.len() {
        let Some((item, next)) = private_entry(line, at)? else {
            return Ok(());
        };
        mark(&mut *kept, item);
        at = next;
    }
    Ok(())
}

pub fn marking_of(kept: &Kept) -> Marking
    ensures { result ≡ marking_of kept.now }
{
    let registers = flags_of(kept, PRIVATE_REGISTERS);
    let predicates = flags_of(kept, PRIVATE_PREDICATES);
    Marking {
        registers,
        predicates,
        sl: is_set(kept, PRIVATE_SL),
        sh: is_set(kept, PRIVATE_SH),
        main: is_set(kept, PRIVATE_MAIN),
        local: is_set(kept, PRIVATE_LOCAL),
        stack: is_set(kept, PRIVATE_STACK),
    }
}
