// What a slot does, as one value computed from the state at the start of the bundle.
ghost use Rattle.std.specs.Prelude.{◌≡◌, get_or};
ghost use Rattle.alu_effects.specs.AluEffects.{holds, op2_value, alu_effect, slot_two_effect};

use crate::AluEffect;
use isa::{AluInstruction, AluOperation, Op2, PredicateOperand};

pub fn register(registers: &[u32], r: u32) -> u32
    ensures { result ≡ get_or registers.now r 0 }
{
    let k = r as usize;
    if k < registers.len() {
        return registers[k];
    }
    0
}

// The value of a predicate operand.
pub fn operand(predicates: &[bool], p: PredicateOperand) -> bool
    ensures { result ≡ holds predicates.now p }
{
    let k = p.predicate as usize;
    if k < predicates.len() {
        return p.negated != predicates[k];
    }
    p.negated
}

fn op2_value(registers: &[u32], o: Op2) -> u32
    ensures { result ≡ op2_value registers.now o }
{
    match o {
        Op2::Register(r) => register(registers, r),
        Op2::Immediate(n) => n,
        Op2::Long(n) => n,
    }
}

// What an ALU operation of either slot does. It is made part of both callers, so that no operation goes through memory.
#[inline(always)]
pub fn alu_effect<'a>(registers: &'a [u32], predicates: &'a [bool], o: AluOperation) -> AluEffect
    ensures { result ≡ alu_effect registers.now predicates.now o }
{
    match o {
        AluOperation::Arithmetic {
            function,
            rd,
            rs1,
            op2,
        } => {
            let value = alu::arithmetic(
                function,
                register(registers, rs1),
                op2_value(registers, op2),
            );
            AluEffect::Register { rd, value }
        }
        AluOperation::Compare {
            function,
            pd,
            rs1,
            op2,
        } => {
            let value = alu::compare(
                function,
                register(registers, rs1),
                op2_value(registers, op2),
            );
            AluEffect::Predicate { pd, value }
        }
        AluOperation::Predicate {
            function,
            pd,
            ps1,
            ps2,
        } => {
            let value = alu::combine(function, operand(predicates, ps1), operand(predicates, ps2));
            AluEffect::Predicate { pd, value }
        }
        AluOperation::BitCopy { rd, rs1, bit, ps } => {
            let value = word::bits::copy_bit(
                register(registers, rs1),
                bit,
                operand(predicates, ps),
            );
            AluEffect::Register { rd, value }
        }
    }
}

// What the instruction of slot two does: nothing where its guard is false.
pub fn slot_two_effect<'a>(
    registers: &'a [u32],
    predicates: &'a [bool],
    i: AluInstruction,
) -> AluEffect
    ensures { result ≡ slot_two_effect registers.now predicates.now i }
{
    let guard = i.guard;
    let operation = i.operation;
    if operand(predicates, guard) {
        return alu_effect(registers, predicates, operation);
    }
    AluEffect::Nothing
}
