// The text of a bundle, put on a page.
#![tactic(auto)]

pub mod showing;
pub mod writing;

use assembly::{Mnemonic, Operand};

// A name with its operands. Those that the form does not have are 0.
#[derive(Clone, Copy)]
pub struct Shown {
    pub mnemonic: Mnemonic,
    pub a: Operand,
    pub b: Operand,
    pub c: Operand,
    pub d: Operand,
}
