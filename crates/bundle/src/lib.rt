// Bundles done or refused, one by one: what a step and a run do. A state is a `Core` by value, with its registers, its predicates and the
// blocks that it holds lent beside it.
// Open first: advance.rt, then attempt.rt, fetched.rt and execute.rt.
#![tactic(auto)]

pub mod advance;
mod attempt;
mod counting;
mod execute;
mod fetched;
mod slot_one;
mod stack_moves;
mod transfers;

use core_state::Core;
use method_cache::Looked;

// The core from which a bundle is done, whether a record was taken, and what its lookup counts.
#[derive(Clone, Copy)]
pub(crate) struct Entry {
    pub core: Core,
    pub due: bool,
    pub looked: Looked,
}
