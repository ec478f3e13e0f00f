// Text: the fields of a line, the numbers that are read from them, tables of texts, and texts and digits put on a page.
#![tactic(auto)]

mod digits;
pub mod fields;
pub mod numbers;
pub mod page;
pub mod table;

// A part of a line, from start up to, not including, end.
#[derive(Clone, Copy, PartialEq, Eq, Debug)]
pub struct Field {
    pub start: usize,
    pub end: usize,
}
