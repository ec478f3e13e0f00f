// What stands behind the numbers that the check is given and gives.
ghost use Rattle.std.specs.Prelude.{◌≡◌, true, List, ℕ};
ghost use Rattle.core_state.specs.State.{predicates_of};
ghost use Rattle.marking.specs.declared.Marking.{Marking};
ghost use Rattle.single_path.specs.Check.{returned, letter_broken};
ghost use Rattle.check_entry.specs.CheckEntry.{marking_of, letter_of, Told};

use crate::CheckedCode;
use answers::Refusal;
use marking::Marking;
use record_parts::reading::predicates_in;
use single_path::{Checked, Rule};

// The bits of a number, the lowest first.
fn bits_of(word: u32) -> [bool; 32]
    ensures { result ≡ predicates_of 32 word }
{
    let mut bits = [false; 32];
    let mut rest = word;
    for i in 0..32 {
        bits[i] = rest % 2 == 1;
        rest /= 2;
    }
    bits
}

pub(crate) fn marking_of(registers: u32, predicates: u32, others: u32) -> Marking
    ensures { result ≡ marking_of registers predicates others }
{
    let registers = bits_of(registers);
    let predicates = predicates_in(predicates);
    let o = predicates_in(others);
    Marking {
        registers,
        predicates,
        sl: o[0],
        sh: o[1],
        main: o[2],
        local: o[3],
        stack: o[4],
    }
}

fn letter_of(r: Rule) -> u32
    ensures { result ≡ letter_of r }
{
    match r {
        Rule::A => 65,
        Rule::B => 66,
        Rule::C => 67,
        Rule::D => 68,
        Rule::E => 69,
    }
}

pub(crate) fn told(c: Checked) -> CheckedCode
    ensures { (m : Marking) (code : List ℕ) → letter_broken m code c ≡ true → Told m code (returned c) result }
{
    match c {
        Checked::Accepted => CheckedCode {
            answer: 0,
            address: 0,
            rule: 0,
        },
        Checked::Refused { refusal, address } => CheckedCode {
            answer: refusal.number(),
            address,
            rule: 0,
        },
        Checked::Broken { address, rule } => CheckedCode {
            answer: Refusal::BrokenRule.number(),
            address,
            rule: letter_of(rule),
        },
    }
}
