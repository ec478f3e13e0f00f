// What is given of a bundle that is refused or done, of slot one carried out, and of what was counted.
ghost use Rattle.std.specs.Prelude.{◌≡◌};
ghost use Rattle.bundle_model.specs.Counts.{no_counts, counts_in};
ghost use Rattle.bundle_model.specs.Execute.{bundled, nothing};

use crate::{Answer, Bundled, Carried, Counts};
use core_state::Core;

// A refused bundle changes nothing. Why it is refused may be told by any type, as by a number.
pub fn refused<R>(core: Core, refusal: R) -> Bundled<R>
    ensures { result ≡ bundled (Answer.Refused refusal) core }
{
    Bundled {
        answer: Answer::Refused(refusal),
        core,
    }
}

pub fn done(core: Core) -> Bundled
    ensures { result ≡ bundled Answer.Done core }
{
    Bundled {
        answer: Answer::Done,
        core,
    }
}

// Slot one carried out, where it reads and writes no store or has nothing to tell.
pub fn nothing() -> Carried
    ensures { result ≡ nothing }
{
    Carried {
        value: 0,
        st: 0,
        ss: 0,
    }
}

pub fn no_counts() -> Counts
    ensures { result ≡ no_counts }
{
    Counts {
        bundles: 0,
        cycles: 0,
        spilled: 0,
        filled: 0,
        misses: 0,
        fetched: 0,
    }
}

// The counts of the six numbers that were lent.
pub fn counts_in(counts: &[u64; 6]) -> Counts
    ensures { result ≡ counts_in counts.now }
{
    Counts {
        bundles: counts[0],
        cycles: counts[1],
        spilled: counts[2],
        filled: counts[3],
        misses: counts[4],
        fetched: counts[5],
    }
}
