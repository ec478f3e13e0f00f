// What a run counts, in six numbers that are lent: only what a bundle counts is added, so that nothing is carried through it.
ghost use Rattle.std.specs.Prelude.{◌≡◌};
ghost use Rattle.bundle_model.specs.Counts.{Fit, plus, counts_in};

use bundle_model::Counts;

pub(crate) fn add(counts: &mut [u64; 6], more: Counts)
    requires { Fit (plus (counts_in counts.old) more) }
    ensures { counts_in counts.new ≡ plus (counts_in counts.old) more }
{
    *counts = [
        counts[0] + more.bundles,
        counts[1] + more.cycles,
        counts[2] + more.spilled,
        counts[3] + more.filled,
        counts[4] + more.misses,
        counts[5] + more.fetched,
    ];
}
