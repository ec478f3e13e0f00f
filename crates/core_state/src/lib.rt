// The state beside registers, predicates and blocks held, and what a bundle writes to it. The registers and predicates are lent; no write
// reads or changes the blocks.
#![tactic(auto)]

pub mod flow;
pub mod judged;
mod special;
pub mod waiting;
mod writes;

use alu_effects::Specials;
use effects::Transfer;
use products::ProductWords;
use replay::Replay;

// The transfer that waits, and how many bundles are to be done before it has happened.
#[derive(Clone, Copy)]
pub enum WaitingTransfer {
    Nothing,
    Waits { transfer: Transfer, wait: u32 },
}

// The load whose value lands at the end of the next bundle.
#[derive(Clone, Copy)]
pub enum WaitingLoad {
    Nothing,
    Waits { register: u32, value: u32 },
}

// A waiting transfer as words. kind: 0 none, 1 br, 2 call, 3 block, and any other xret. A number and no Option: inside a bundle an enum is
// copied byte by byte, which took a quarter more instructions.
#[derive(Clone, Copy)]
pub struct TransferWords {
    pub kind: u32,
    pub target: u32,
    pub base: u32,
    pub wait: u32,
}

// A waiting load as words, for the same reason. None waits if waits is 0.
#[derive(Clone, Copy)]
pub struct LoadWords {
    pub waits: u32,
    pub register: u32,
    pub value: u32,
}

// The state beside what is lent, inside a bundle. It holds words alone: an enum in it would be copied byte by byte.
#[derive(Clone, Copy)]
pub struct Core {
    pub specials: Specials,
    pub fetch: u32,
    pub base: u32,
    pub transfer: TransferWords,
    pub load: LoadWords,
    pub products: ProductWords,
    pub replay: Replay,
}
