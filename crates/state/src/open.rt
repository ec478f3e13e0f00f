// The one way to a fresh state.
ghost use Rattle.std.specs.Prelude.{◌≡◌};
ghost use Rattle.method_cache.specs.Words.{FixedHeld};
ghost use Rattle.core_state.specs.State.{fresh, blank};
ghost use Rattle.settings.specs.Setup.{setup, buffers};
ghost use Rattle.state.specs.Whole.{state_of};
ghost use Rattle.state.specs.Open.{open_with, opening};

use crate::{Opened, State};
use alu_effects::Specials;
use answers::{Refusal, Verdict};
use core_state::{WaitingLoad, WaitingTransfer};
use products::Products;
use replay::Replay;
use settings::Config;

impl State {
    // The state that is all zero, p0 too. It stands where there is no state to hand back; every step and run refuses it.
    pub fn blank() -> State
        ensures { (state_of result ≡ blank) × FixedHeld result.held }
    {
        State {
            registers: [0; 32],
            predicates: [false; 8],
            specials: Specials {
                sl: 0,
                sh: 0,
                ss: 0,
                st: 0,
                srb: 0,
                sro: 0,
                sxb: 0,
                sxo: 0,
            },
            fetch: 0,
            base: 0,
            transfer: WaitingTransfer::Nothing,
            load: WaitingLoad::Nothing,
            products: Products::Nothing,
            held: [0; 17],
            replay: Replay {
                active: false,
                place: 0,
                done: 0,
            },
        }
    }

    // The blank state with what a fresh one has beside zeros.
    fn fresh(code: u32, hi: u32, entry: u32) -> State
        ensures { (state_of result ≡ fresh code hi entry) × FixedHeld result.held }
    {
        let mut s = State::blank();
        s.predicates[0] = true;
        s.specials.ss = hi;
        s.specials.st = hi;
        s.specials.sro = code;
        s.fetch = entry;
        s.base = entry;
        s
    }

    // Settings and entry are judged, and the fresh state is handed back, with the lent cache words cleared.
    pub fn open(
        code: &[u8],
        main: &[u8],
        local: &[u8],
        cache: &mut [u32],
        config: Config,
        entry: u32,
    ) -> Opened
        ensures opened { open_with result cache.new ≡ opening (setup code.now config) (buffers main.now local.now cache.old) entry }
        ensures fixed { FixedHeld result.state.held }
    {
        let g = config.settings(code, main.len(), local.len(), cache.len());
        let admitted = g.admits();
        let inside = (entry % 4 == 0) & ((entry as usize) < code.len());
        if !admitted {
            return Opened {
                answer: Err(Refusal::Limits),
                state: State::blank(),
            };
        }
        if !inside {
            return Opened {
                answer: Err(Refusal::OutsideCode),
                state: State::blank(),
            };
        }
        cache.fill(0);
        Opened {
            answer: Ok(()),
            state: State::fresh(code.len() as u32, config.hi, entry),
        }
    }
}
