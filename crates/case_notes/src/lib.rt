// What a case says: its description and its marking, put among the kept numbers. Nothing here reads, writes or does a bundle.
#![tactic(auto)]

pub mod description;
pub mod description_line;
pub mod held;
mod lists;
pub mod marked;
pub mod record;
pub mod replay;
pub mod waiting;

// A list that lines of a case give: the bases of the blocks held, or the words of the record.
#[derive(Clone, Copy, PartialEq, Eq, Debug)]
pub enum Listed {
    Held,
    Record,
}
