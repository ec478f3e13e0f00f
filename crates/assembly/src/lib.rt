// The one table by which the text of instructions is read and put, and the text of operands.
#![tactic(auto)]

pub mod operand_text;
pub mod operands;
pub mod table;

// An operand: its number, and whether `!` stands before it. A special register's number is that of its field.
#[derive(Clone, Copy, PartialEq, Eq, Debug)]
pub struct Operand {
    pub negated: bool,
    pub number: u32,
}

// An instruction's name: its form's place in the table, and the number of its function.
#[derive(Clone, Copy, PartialEq, Eq, Debug)]
pub struct Mnemonic {
    pub form: u32,
    pub function: u32,
}
