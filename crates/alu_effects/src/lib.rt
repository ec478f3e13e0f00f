// What an operation that either slot can hold does, as a value, and the special registers that an operation can read.
#![tactic(auto)]

pub mod either_slot;
pub mod special;

// What either slot can do. Nothing is one of three things that it does, so this is no Option of the other two.
#[derive(Clone, Copy)]
pub enum AluEffect {
    Nothing,
    Register { rd: u32, value: u32 },
    Predicate { pd: u32, value: bool },
}

// The special registers beside s0, which is the predicates.
#[derive(Clone, Copy)]
pub struct Specials {
    pub sl: u32,
    pub sh: u32,
    pub ss: u32,
    pub st: u32,
    pub srb: u32,
    pub sro: u32,
    pub sxb: u32,
    pub sxo: u32,
}
