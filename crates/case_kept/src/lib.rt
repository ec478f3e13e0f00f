// What is kept of a case from line to line: its numbers, each at an index, and the memories and cache that it describes.
#![tactic(auto)]

pub mod buffers;
pub mod clearing;
pub mod extent;
pub mod kept;
pub mod places;
