// The window of the cache: st up to, not including, ss.
ghost use Rattle.std.specs.Prelude.{◌≡◌};
ghost use Rattle.stack_cache.specs.Stack.{bad_window};

// Refusal 7 of every stack instruction and access.
#[tactic(auto, unfolding(crate::specs::Stack::bad_window))]
pub fn bad_window(w: usize, st: u32, ss: u32) -> bool
    ensures { result ≡ bad_window w st ss }
{
    if ss % 4 != 0 {
        return true;
    }
    if st % 4 != 0 {
        return true;
    }
    if ss < st {
        return true;
    }
    w < ((ss - st) as usize + 3) / 4
}
