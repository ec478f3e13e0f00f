// The state by value with its methods, and the fresh state.
#![tactic(auto)]

pub mod open;
pub mod whole_state;

use alu_effects::Specials;
use answers::Verdict;
use bundle_model::{Answer, Counts};
use core_state::{WaitingLoad, WaitingTransfer};
use products::Products;
use replay::Replay;

#[derive(Clone, Copy)]
pub struct State {
    pub registers: [u32; 32],
    pub predicates: [bool; 8],
    pub specials: Specials,
    pub fetch: u32,
    pub base: u32,
    pub transfer: WaitingTransfer,
    pub load: WaitingLoad,
    // Of two the second's wait is counted from the landing of the first.
    pub products: Products,
    // How many blocks the method cache holds, and then their bases, the oldest first. A count above 16 reads as 16.
    pub held: [u32; 17],
    // Whether a handler is active, and how far the replay of recorded interrupts is.
    pub replay: Replay,
}

// A step's answer, with the state handed back and the counts of that one bundle.
#[derive(Clone, Copy)]
pub struct Stepped {
    pub answer: Answer,
    pub state: State,
    pub counts: Counts,
}

// What an opening answers beside the state; of a refused one that is a state that no step or run takes.
#[derive(Clone, Copy)]
pub struct Opened {
    pub answer: Verdict,
    pub state: State,
}
