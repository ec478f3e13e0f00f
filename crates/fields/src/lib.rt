// What the fields of the formats hold, and how a number is put into its field.
#![tactic(auto)]

pub mod codes;
pub mod place;
