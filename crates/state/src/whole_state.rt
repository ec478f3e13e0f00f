// The state of the core, by value, and what is done to it.
ghost use Rattle.std.specs.Prelude.{◌≡◌};
ghost use Rattle.settings.specs.Setup.{given_setup, found, left};
ghost use Rattle.method_cache.specs.Words.{held_in, FixedHeld};
ghost use Rattle.core_state.specs.State.{with_held};
ghost use Rattle.core_state.specs.Core.{joined};
ghost use Rattle.bundle_model.specs.Bundle.{full, step};
ghost use Rattle.state.specs.Whole.{state_of, core_of, stepped_of};

use crate::{State, Stepped};
use bundle::advance::advance;
use core_state::Core;
use core_state::waiting::{load_words, transfer_words, waiting_load, waiting_transfer};
use method_cache::words::tidy;
use products::words::{product_words, products_in};
use settings::Given;

impl State {
    // The state beside registers, predicates and blocks held.
    pub fn core(self) -> Core
        ensures { result ≡ core_of self }
    {
        let specials = self.specials;
        let waiting = self.transfer;
        let transfer = transfer_words(waiting);
        let landing = self.load;
        let load = load_words(landing);
        let under_way = self.products;
        let products = product_words(under_way);
        let replay = self.replay;
        Core {
            specials,
            fetch: self.fetch,
            base: self.base,
            transfer,
            load,
            products,
            replay,
        }
    }

    // The state of its four parts.
    pub fn join(registers: [u32; 32], predicates: [bool; 8], held: [u32; 17], core: Core) -> State
        ensures { (state_of result ≡ with_held (joined registers predicates core) (held_in held)) × (result.held ≡ held) }
    {
        let specials = core.specials;
        let waiting = core.transfer;
        let transfer = waiting_transfer(waiting);
        let landing = core.load;
        let load = waiting_load(landing);
        let under_way = core.products;
        let products = products_in(under_way);
        let replay = core.replay;
        State {
            registers,
            predicates,
            specials,
            fetch: core.fetch,
            base: core.base,
            transfer,
            load,
            products,
            held,
            replay,
        }
    }

    // One step: settings, state, list and table are judged, an ended state is left as it is, and else the bundle is done or refused, with the
    // record of the list that is due. The words of the blocks held are handed back in their one form.
    pub fn step(
        self,
        given: &Given,
        main: &mut [u8],
        local: &mut [u8],
        cache: &mut [u32],
    ) -> Stepped
        ensures stepped { full (stepped_of result) (left main local cache) ≡ step (given_setup given.now) (state_of self) (found main local cache) }
        ensures fixed { FixedHeld result.state.held }
    {
        let mut registers = self.registers;
        let mut predicates = self.predicates;
        let mut held = self.held;
        tidy(&mut held);
        let r = advance(
            self.core(),
            &mut registers,
            &mut predicates,
            &mut held,
            given,
            &mut *main,
            &mut *local,
            &mut *cache,
            1,
        );
        let answer = r.answer;
        let counts = r.counts;
        let core = r.core;
        Stepped {
            answer,
            state: State::join(registers, predicates, held, core),
            counts,
        }
    }
}
