// What an operation and a bundle are found to break. Where `guard` is a parameter it says whether the guard is private.
#![tactic(auto)]

ghost use Rattle.std.specs.Prelude.{true, ◌≡◌};
ghost use Rattle.marking_rules.specs.Rules.{asked, operation_breaks, instruction_breaks, breaks};
ghost use Rattle.broken_rules.specs.Found.{right, slot_two_breaks};

use isa::{AluInstruction, Bundle, Instruction, Operation};
use marking::Marking;
use marking_rules::{Asked, Rule, asked_of, asked_of_alu};

// The first rule that an operation breaks, of which `row` says what the rules ask.
fn first_rule(m: Marking, guard: bool, row: Asked) -> Option<Rule>
    ensures { (o : Operation) → row ≡ asked m o → right (operation_breaks m guard o) result ≡ true }
{
    if guard & row.control {
        return Some(Rule::A);
    }
    if row.destination & (guard | row.source) {
        return Some(Rule::B);
    }
    if row.base {
        return Some(Rule::C);
    }
    if row.store & (guard | row.value) {
        return Some(Rule::D);
    }
    if row.operand {
        return Some(Rule::E);
    }
    None
}

fn instruction_rule(m: Marking, i: Instruction) -> Option<Rule>
    ensures { right (instruction_breaks m i) result ≡ true }
{
    let guard = i.guard;
    let operation = i.operation;
    first_rule(m, m.private_operand(guard), asked_of(m, operation))
}

fn slot_two_rule(m: Marking, j: AluInstruction) -> Option<Rule>
    ensures { right (slot_two_breaks m j) result ≡ true }
{
    let guard = j.guard;
    let operation = j.operation;
    first_rule(m, m.private_operand(guard), asked_of_alu(m, operation))
}

fn pair_rule(m: Marking, i: Instruction, j: AluInstruction) -> Option<Rule>
    ensures { right (breaks m (Bundle.Two i j)) result ≡ true }
{
    let one = instruction_rule(m, i);
    let two = slot_two_rule(m, j);
    one.or(two)
}

// A rule that a bundle breaks. One that cannot be decoded has nothing that could break one.
pub fn judge(m: Marking, b: Bundle) -> Option<Rule>
    ensures { right (breaks m b) result ≡ true }
{
    match b {
        Bundle::Undecodable => None,
        Bundle::One(i) | Bundle::Long(i) => instruction_rule(m, i),
        Bundle::Two(i, j) => pair_rule(m, i, j),
    }
}
