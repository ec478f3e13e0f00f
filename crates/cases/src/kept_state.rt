// The state of a case among the kept numbers, and what a run is given beside it.
use bundle_model::Counts;
use case_kept::extent::Extents;
use case_kept::kept::{
    ACTIVE, BASE, BLOCKS, BYTES, COUNTS, DONE, FETCH, Kept, METHOD, PLACE, PREDICATES, REGISTERS,
    SPECIALS, flags_of, is_set, number, word,
};
use case_notes::waiting::keep_replay;
use case_state::{
    held_of, keep_held, keep_predicates, keep_products, keep_waiting, keep_waiting_load,
    keep_words, listed, load_of, products_of, registers_of, specials_of, transfer_of,
};
use method_cache::Method;
use replay::Replay;
use settings::Config;
use state::State;

// The stack area, and the method cache, which is off where no line gives it.
pub(crate) fn config_of(e: Extents, kept: &Kept) -> Config {
    let method = Method {
        on: is_set(kept, METHOD),
        blocks: word(kept, BLOCKS),
        bytes: word(kept, BYTES),
    };
    Config {
        lo: e.lo,
        hi: e.hi,
        method,
    }
}

pub(crate) fn state_of(kept: &Kept) -> State {
    let registers = registers_of(kept);
    let predicates = flags_of(kept, PREDICATES);
    let specials = specials_of(kept);
    let transfer = transfer_of(kept);
    let load = load_of(kept);
    let products = products_of(kept);
    let held = held_of(kept);
    let replay = Replay {
        active: is_set(kept, ACTIVE),
        place: word(kept, PLACE),
        done: word(kept, DONE),
    };
    State {
        registers,
        predicates,
        specials,
        fetch: word(kept, FETCH),
        base: word(kept, BASE),
        transfer,
        load,
        products,
        held,
        replay,
    }
}

fn keep_registers(kept: &mut Kept, registers: [u32; 32]) {
    keep_words(&mut *kept, REGISTERS, &registers);
}

pub(crate) fn keep_state(kept: &mut Kept, s: State) {
    let registers = s.registers;
    let predicates = s.predicates;
    let specials = listed(s.specials);
    let transfer = s.transfer;
    let load = s.load;
    let products = s.products;
    let held = s.held;
    kept[FETCH] = s.fetch as u64;
    kept[BASE] = s.base as u64;
    keep_words(&mut *kept, SPECIALS, &specials);
    keep_registers(&mut *kept, registers);
    keep_predicates(&mut *kept, predicates);
    keep_waiting(&mut *kept, transfer);
    keep_waiting_load(&mut *kept, load);
    keep_products(&mut *kept, products);
    keep_held(&mut *kept, held);
}

// How far the replay is, of a state that is kept.
pub(crate) fn keep_far(kept: &mut Kept, r: Replay) {
    keep_replay(&mut *kept, r.active, r.place, r.done);
}

// The counts of the last run or step: a record of the state has them.
pub(crate) fn keep_counts(kept: &mut Kept, c: Counts) {
    kept[COUNTS] = c.bundles;
    kept[COUNTS + 1] = c.cycles;
    kept[COUNTS + 2] = c.spilled;
    kept[COUNTS + 3] = c.filled;
    kept[COUNTS + 4] = c.misses;
    kept[COUNTS + 5] = c.fetched;
}

pub(crate) fn counts_of(kept: &Kept) -> Counts {
    Counts {
        bundles: number(kept, COUNTS),
        cycles: number(kept, COUNTS + 1),
        spilled: number(kept, COUNTS + 2),
        filled: number(kept, COUNTS + 3),
        misses: number(kept, COUNTS + 4),
        fetched: number(kept, COUNTS + 5),
    }
}
