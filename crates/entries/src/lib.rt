// The entries for C that go on from a record: numbers and byte slices in, a number out. include/laqemdit.h declares them, docs/C.md tells how
// they are used. Each does nothing but put its arguments together, call one function, and number the answer.
// Open first: running.rt, then numbers.rt.
#![tactic(auto)]

pub mod numbers;
pub mod running;
