// The text of a bundle, read: what a case file asks to be written.
#![tactic(auto)]

pub mod reading;
