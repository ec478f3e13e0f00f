// The registers and the predicates, as lists of which the first place is never written.
#![tactic(auto)]

ghost use Rattle.std.specs.Prelude.{◌≡◌};
ghost use Rattle.registers.specs.Registers.{put_later};

// A register or a predicate written. The place at 0 is not: r0 stays zero, and p0 true.
pub fn write_later<T: Copy>(places: &mut [T], at: u32, v: T)
    ensures { places.new ≡ put_later places.old at v }
{
    if at == 0 {
        return;
    }
    let k = at as usize;
    if k < places.len() {
        places[k] = v;
        return;
    }
}
