// Stack instructions: planned, and their words moved.
ghost use Rattle.std.specs.Prelude.{◌≡◌, Bool, true, List, ℕ, ◌≤◌, length};
ghost use Rattle.settings.specs.Settings.{admits};
ghost use Rattle.settings.specs.Setup.{buffers, setup_of};
ghost use Rattle.core_state.specs.Core.{joined};
ghost use Rattle.core_state.specs.State.{with_held};
ghost use Rattle.bundle_model.specs.Counts.{Few, plus, counts_in};
ghost use Rattle.bundle_model.specs.Execute.{carried_as, carried_out, counted_by, extra_of, Moved};

use crate::counting::add;
use answers::Refusal;
use bundle_model::{Carried, Counts};
use core_state::Core;
use effects::Effect;
use settings::Settings;
use stack_cache::moves::{fill, spill};
use stack_cache::{Plan, StackCache, StackControl};
use stack_control::plan;

// A stack instruction: the words that it moves are judged whole, and then moved.
pub(crate) fn do_stack(
    core: Core,
    counts: &mut [u64; 6],
    g: Settings,
    control: StackControl,
    words: u32,
    aligned: bool,
    main: &mut [u8],
    cache: &mut [u32],
) -> Result<Carried, Refusal>
    requires { (admits g ≡ true) × (g.main ≡ length main.old) × Few 4294967294 (counts_in counts.old) }
    ensures { (code rs hs l : List ℕ) (ps : List Bool) → (carried_as result (buffers main.new l cache.new) ≡ carried_out g (setup_of code g) (with_held (joined rs ps core) hs) (Effect.Stack control words aligned) (buffers main.old l cache.old)) × (counts_in counts.new ≡ plus (counts_in counts.old) (counted_by result (extra_of g (setup_of code g) (with_held (joined rs ps core) hs) (Effect.Stack control words aligned)))) }
{
    if !aligned {
        return Err(Refusal::Misaligned);
    }
    let stack = StackCache::new(g.words)?;
    let old = core.specials.ss;
    let Plan {
        st,
        ss,
        spilled,
        filled,
    } = plan(stack, control, g.lo, g.hi, core.specials.st, old, words)?;
    move_words(&mut *main, &mut *cache, g.lo, g.hi, old, spilled, filled);
    add(
        &mut *counts,
        Counts {
            bundles: 0,
            cycles: 0,
            spilled: spilled as u64,
            filled: filled as u64,
            misses: 0,
            fetched: 0,
        },
    );
    Ok(Carried { value: 0, st, ss })
}

// The words that a plan moves, between the stack area's part of main memory and the cache.
fn move_words(
    main: &mut [u8],
    cache: &mut [u32],
    lo: u32,
    hi: u32,
    ss: u32,
    spilled: u32,
    filled: u32,
)
    requires { (lo ≤ hi) × (hi ≤ length main.old) × ((filled ≡ 0 → ⊥) → spilled ≡ 0) }
    ensures { Moved lo hi ss spilled filled main.old cache.old main.new cache.new }
{
    let from = lo as usize;
    let to = hi as usize;
    if filled == 0 {
        spill(&mut main[from..to], cache, lo, ss, spilled);
        return;
    }
    fill(&main[from..to], &mut *cache, lo, ss, filled);
}
