// The decoder: a first and a second word to the bundle that they encode. Whoever executes or checks a bundle goes by the
// contracts of `decode` and `bundle_words`.
#![tactic(auto)]

ghost use Rattle.std.specs.Prelude.{◌≡◌, cond, None};
ghost use Rattle.isa.specs.Format.{reading};
ghost use Rattle.isa.specs.Formats.{long_formats, applied};
ghost use Rattle.decoder.specs.Decode.{is_two_words, bundle_words, guard_of, slot_one, slot_two, decode};

use isa::{AluInstruction, AluOperation, Bundle, Instruction, Operation, PredicateOperand};

// How many words a bundle has, by its first.
#[tactic(auto, unfolding(crate::specs::Decode::bundle_words))]
pub fn bundle_words(first: u32) -> u32
    ensures { result ≡ bundle_words first }
{
    if first / 2147483648 % 2 == 1 {
        return 2;
    }
    1
}

#[tactic(auto, unfolding(crate::specs::Decode::guard_of))]
fn guard_of(w: u32) -> PredicateOperand
    ensures { result ≡ guard_of w }
{
    alu_formats::predicate_operand(w / 134217728 % 16)
}

#[tactic(auto, unfolding(crate::specs::Decode::slot_one))]
fn slot_one(w: u32) -> Option<Operation>
    ensures { result ≡ slot_one w }
{
    if let Some(operation) = alu_formats::read_alu(w) {
        return Some(Operation::Alu(operation));
    }
    first_formats::read_first(w)
}

#[tactic(auto, unfolding(crate::specs::Decode::slot_two))]
fn slot_two(w: u32) -> Option<AluOperation>
    ensures { result ≡ slot_two w }
{
    if w / 2147483648 % 2 == 1 {
        return None;
    }
    alu_formats::read_alu(w)
}

// A long immediate, which needs a bundle of two words.
#[tactic(auto, using(crate::specs::DecodeLaws::words_one, crate::specs::DecodeLaws::words_two))]
fn long(first: u32, second: u32) -> Option<AluOperation>
    ensures { result ≡ cond (is_two_words first) (applied (reading long_formats first) second) None }
{
    if bundle_words(first) == 1 {
        return None;
    }
    alu_formats::read_long(first, second)
}

// The bundle that a first and a second word encode. Where the first says that it is alone the second does not matter.
pub fn decode(first: u32, second: u32) -> Bundle
    ensures { result ≡ decode first second }
{
    if let Some(operation) = long(first, second) {
        return Bundle::Long(Instruction {
            guard: guard_of(first),
            operation: Operation::Alu(operation),
        });
    }
    let Some(operation) = slot_one(first) else {
        return Bundle::Undecodable;
    };
    let one = Instruction {
        guard: guard_of(first),
        operation,
    };
    if bundle_words(first) == 1 {
        return Bundle::One(one);
    }
    let Some(other) = slot_two(second) else {
        return Bundle::Undecodable;
    };
    let two = AluInstruction {
        guard: guard_of(second),
        operation: other,
    };
    Bundle::Two(one, two)
}
