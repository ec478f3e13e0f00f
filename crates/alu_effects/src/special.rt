// The special registers beside s0, and reading any of them.
ghost use Rattle.std.specs.Prelude.{◌≡◌, cond, ◌<◌};
ghost use Rattle.alu_effects.specs.AluEffects.{predicates_word, special};

use crate::Specials;
use isa::Special;

fn bit(b: bool) -> u32
    ensures { (result ≡ cond b 1 0) × (result < 2) }
{
    if b { 1 } else { 0 }
}

// s0 as a word: p0 in bit 0, upper bits zero.
fn predicates_word(p: [bool; 8]) -> u32
    ensures { result ≡ predicates_word p }
{
    let upper = bit(p[4]) + 2 * (bit(p[5]) + 2 * (bit(p[6]) + 2 * bit(p[7])));
    bit(p[0]) + 2 * (bit(p[1]) + 2 * (bit(p[2]) + 2 * (bit(p[3]) + 2 * upper)))
}

pub fn read_special(predicates: &[bool; 8], specials: Specials, s: Special) -> u32
    ensures { result ≡ special predicates.now specials s }
{
    match s {
        Special::S0 => predicates_word(*predicates),
        Special::Sl => specials.sl,
        Special::Sh => specials.sh,
        Special::Ss => specials.ss,
        Special::St => specials.st,
        Special::Srb => specials.srb,
        Special::Sro => specials.sro,
        Special::Sxb => specials.sxb,
        Special::Sxo => specials.sxo,
    }
}
