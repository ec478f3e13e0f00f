// What is judged before bundles are done: the settings, the state, what is replayed, and whether the state has ended.
ghost use Rattle.std.specs.Prelude.{◌≡◌};
ghost use Rattle.settings.specs.Setup.{given_setup_of};
ghost use Rattle.method_cache.specs.Words.{held_in};
ghost use Rattle.core_state.specs.State.{with_held};
ghost use Rattle.core_state.specs.Core.{joined};
ghost use Rattle.bundle_model.specs.Bundle.{readiness};

use crate::Readiness;
use answers::Refusal;
use core_state::Core;
use core_state::judged::{has_ended, parts_ok};
use method_cache::lookup::held_ok;
use replay::replay_ok;
use settings::{Given, Settings};

// Judged in this order, as the refusals have it.
pub fn readiness(
    core: Core,
    registers: &[u32; 32],
    predicates: &[bool; 8],
    held: &[u32; 17],
    given: &Given,
    g: Settings,
) -> Readiness
    ensures { result ≡ readiness g (given_setup_of given.now g) (with_held (joined registers.now predicates.now core) (held_in held.now)) }
{
    if !g.admits() {
        return Readiness::Refused(Refusal::Limits);
    }
    let method = g.method;
    let code = given.code;
    if !(parts_ok(core, registers, predicates) & held_ok(method, code, held)) {
        return Readiness::Refused(Refusal::IllFormed);
    }
    let list = given.list;
    let table = given.table;
    if !replay_ok(list, table) {
        return Readiness::Refused(Refusal::Replay);
    }
    if has_ended(core, g.code) {
        return Readiness::Ended;
    }
    Readiness::Ready
}
