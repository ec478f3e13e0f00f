// What a bundle does: its refusals, its writes and counts, and the step, in specs/. Here are the types of what it gives, how they are
// made, and what is judged before.
#![tactic(auto)]

pub mod outcome;
pub mod ready;

use answers::Refusal;
use core_state::Core;

// What a step answers: a way to end more than a Result has. Why it refuses is a Refusal, where no other type is named.
#[derive(Clone, Copy)]
pub enum Answer<R = Refusal> {
    Done,
    Ended,
    Refused(R),
}

// What is judged before a bundle is tried: one thing more than a Result can tell.
#[derive(Clone, Copy)]
pub enum Readiness {
    Ready,
    Ended,
    Refused(Refusal),
}

// The six counts.
#[derive(Clone, Copy)]
pub struct Counts {
    pub bundles: u64,
    pub cycles: u64,
    pub spilled: u64,
    pub filled: u64,
    pub misses: u64,
    pub fetched: u64,
}

// A bundle's answer, with the state beside what is lent handed back. What is counted is added to numbers that are lent.
#[derive(Clone, Copy)]
pub struct Bundled<R = Refusal> {
    pub answer: Answer<R>,
    pub core: Core,
}

// The same after any number of bundles, with their counts.
#[derive(Clone, Copy)]
pub struct Advanced {
    pub answer: Answer,
    pub core: Core,
    pub counts: Counts,
}

// What slot one, carried out on the stores, tells: the value that was loaded, and where a stack instruction leaves st and ss; what does not
// apply is 0.
#[derive(Clone, Copy)]
pub struct Carried {
    pub value: u32,
    pub st: u32,
    pub ss: u32,
}
