// The record of a stopped box: how it is written over a lent buffer, and what is read of one.
// Open first: writing.rt and reading.rt, then putting.rt.
#![tactic(auto)]

mod putting;
pub mod reading;
pub mod writing;

use bundle_model::Counts;
use state::State;

// What is read of bytes: whether they have the form of a record, and the state and the counts of that record; of others the state is the
// blank one, which no step or run takes, and the counts are 0. The cache words go to a lent buffer.
#[derive(Clone, Copy)]
pub struct Read {
    pub formed: bool,
    pub state: State,
    pub counts: Counts,
}
