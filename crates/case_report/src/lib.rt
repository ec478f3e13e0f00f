// The texts of the report, put on a page, and the one function that writes a buffer out.
#![tactic(auto)]

pub mod changes;
pub mod form;
pub mod mistake;
pub mod output;
mod reasons;
pub mod record_lines;
pub mod state_lines;
