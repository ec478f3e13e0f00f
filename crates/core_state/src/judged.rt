// What is judged of a state: whether its parts are well formed, the blocks held aside, and whether it has ended.
ghost use Rattle.std.specs.Prelude.{◌≡◌, Bool, List, ℕ};
ghost use Rattle.core_state.specs.State.{parts_ok, ended};
ghost use Rattle.core_state.specs.Core.{joined};

use crate::Core;
use crate::waiting::{load_ok, none_waits, wait_ok};
use products::words::products_ok;

// Whether refusal 11 lets the state pass, but for the blocks held, which are lent elsewhere.
pub fn parts_ok(core: Core, registers: &[u32; 32], predicates: &[bool; 8]) -> bool
    ensures { result ≡ parts_ok (joined registers.now predicates.now core) }
{
    let load = core.load;
    let transfer = core.transfer;
    let products = core.products;
    ((registers[0] == 0) & predicates[0])
        & ((load_ok(load) & wait_ok(transfer)) & products_ok(products))
}

pub fn has_ended(core: Core, code: usize) -> bool
    ensures { (rs : List ℕ) (ps : List Bool) → result ≡ ended (joined rs ps core) code }
{
    let transfer = core.transfer;
    (core.fetch as usize == code) & none_waits(transfer)
}
