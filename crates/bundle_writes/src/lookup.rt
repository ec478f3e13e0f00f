// Lookups in the method cache: which block a transfer looks up, whether 13 describes it, and the lookup itself.
ghost use Rattle.std.specs.Prelude.{◌≡◌, cond, [], ◌∷◌};
ghost use Rattle.answers.specs.Test.{verdict};
ghost use Rattle.method_cache.specs.MethodCache.{misses};
ghost use Rattle.settings.specs.Setup.{setup_of};
ghost use Rattle.bundle_model.specs.Lookup.{bases_of, lookup_tests};
ghost use Rattle.bundle_writes.specs.Lookup.{new_base, LookedUp};

use answers::{Refusal, Verdict};
use effects::Transfer;
use method_cache::Looked;
use method_cache::lookup::{is_bad, look_up};
use settings::Settings;

// The base that a transfer brings, by which its block is looked up; br brings none.
fn new_base(t: Transfer) -> u32
    ensures { result ≡ new_base t }
{
    match t {
        Transfer::Br { target: _ } => 0,
        Transfer::Call { target } => target,
        Transfer::Block { target: _, base } => base,
        Transfer::Xret { target: _, base } => base,
    }
}

// Whether a transfer looks up a block: while the cache is on, each but br whose target is not the code's end.
fn looks_up(g: Settings, code: &[u8], t: Transfer) -> bool
    ensures { cond result (new_base t ∷ []) [] ≡ bases_of (setup_of code.now g) t }
{
    let method = g.method;
    match t {
        Transfer::Br { target: _ } => false,
        Transfer::Call { target } => method.on & (target as usize != code.len()),
        Transfer::Block { target, base: _ } => method.on & (target as usize != code.len()),
        Transfer::Xret { target, base: _ } => method.on & (target as usize != code.len()),
    }
}

// 13 of what a transfer looks up.
pub fn judge_lookup(g: Settings, code: &[u8], t: Transfer) -> Verdict
    ensures { result ≡ verdict (lookup_tests g.method code.now (bases_of (setup_of code.now g) t)) }
{
    let method = g.method;
    if !looks_up(g, code, t) {
        return Ok(());
    }
    if is_bad(method, code, new_base(t)) {
        return Err(Refusal::NoBlock);
    }
    Ok(())
}

// The lookup of a transfer, if it has one, and what it counts.
pub fn look_up_transfer(g: Settings, code: &[u8], held: &mut [u32; 17], t: Transfer) -> Looked
    ensures { LookedUp g code.now t held.old held.new result }
{
    let method = g.method;
    if !looks_up(g, code, t) {
        return Looked {
            misses: 0,
            fetched: 0,
        };
    }
    look_up(method, code, &mut *held, new_base(t))
}
