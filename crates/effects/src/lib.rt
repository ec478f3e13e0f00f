// What the slots of a bundle do, as values: computed from the state at the start, before anything is written.
#![tactic(auto)]

pub mod slot;

use alu_effects::{AluEffect, Specials};
use isa::{AccessKind, LoadWidth, Special, StoreWidth};
use stack_cache::StackControl;

// What the slots read: the state as the bundle begins, and the table of handlers.
#[derive(Clone, Copy)]
pub struct AtStart<'a> {
    pub registers: &'a [u32],
    pub predicates: &'a [bool; 8],
    pub specials: Specials,
    pub fetch: u32,
    pub table: &'a [u8],
}

// A transfer of control that is to be carried out. Block is brcf and ret, which set the base; so does xret, which also ends a handler.
#[derive(Clone, Copy)]
pub enum Transfer {
    Br { target: u32 },
    Call { target: u32 },
    Block { target: u32, base: u32 },
    Xret { target: u32, base: u32 },
}

// What slot one can do.
#[derive(Clone, Copy)]
pub enum Effect {
    Alu(AluEffect),
    Special {
        special: Special,
        value: u32,
    },
    Product {
        low: u32,
        high: u32,
    },
    Load {
        kind: AccessKind,
        width: LoadWidth,
        rd: u32,
        address: u32,
    },
    Store {
        kind: AccessKind,
        width: StoreWidth,
        address: u32,
        value: u32,
    },
    Stack {
        control: StackControl,
        words: u32,
        aligned: bool,
    },
    Transfer {
        delayed: bool,
        transfer: Transfer,
    },
    Trap {
        vector: u32,
        handler: u32,
    },
}
