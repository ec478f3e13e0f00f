// Loads and stores, judged and carried out.
#![tactic(auto)]

pub mod access;
pub mod judge;
pub mod width;
