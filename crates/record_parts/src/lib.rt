// The parts of a box as the words of their sections, and read from them again.
// Open first: writing.rt, then reading.rt and form.rt.
#![tactic(auto)]

pub mod form;
pub mod reading;
pub mod writing;

// Up to six words of a section: the first ones, so many as count says.
#[derive(Clone, Copy)]
pub struct Few {
    pub words: [u32; 6],
    pub count: usize,
}
