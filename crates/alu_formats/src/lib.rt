// The ALU formats: what either slot can hold, and the long immediate.
#![tactic(auto, using(isa::specs::TableLaws::rows, isa::specs::TableLaws::row_applied), unfolding(isa::specs::Format::reading))]

ghost use Rattle.std.specs.Prelude.{◌≡◌, Some};
ghost use Rattle.isa.specs.Format.{reading, row};
ghost use Rattle.isa.specs.Tables.{alu_table, compare_table, predicate_table};
ghost use Rattle.isa.specs.Formats.{predicate_operand, long_formats, applied, alu_formats};

use isa::{AluOperation, Op2, PredicateOperand};

// Four bits that name a predicate.
pub fn predicate_operand(n: u32) -> PredicateOperand
    ensures { result ≡ predicate_operand n }
{
    PredicateOperand {
        negated: n / 8 == 1,
        predicate: n % 8,
    }
}

fn arithmetic(func: u32, rd: u32, rs1: u32, op2: Op2) -> Option<AluOperation>
    ensures { result ≡ row alu_table func (λ f. Some (AluOperation.Arithmetic f rd rs1 op2)) }
{
    let function = isa::tables::alu_function(func)?;
    Some(AluOperation::Arithmetic {
        function,
        rd,
        rs1,
        op2,
    })
}

fn compare(func: u32, pd: u32, rs1: u32, op2: Op2) -> Option<AluOperation>
    ensures { result ≡ row compare_table func (λ f. Some (AluOperation.Compare f pd rs1 op2)) }
{
    let function = isa::tables::compare_function(func)?;
    Some(AluOperation::Compare {
        function,
        pd,
        rs1,
        op2,
    })
}

fn predicate(
    func: u32,
    pd: u32,
    ps1: PredicateOperand,
    ps2: PredicateOperand,
) -> Option<AluOperation>
    ensures { result ≡ row predicate_table func (λ f. Some (AluOperation.Predicate f pd ps1 ps2)) }
{
    let function = isa::tables::predicate_function(func)?;
    Some(AluOperation::Predicate {
        function,
        pd,
        ps1,
        ps2,
    })
}

// A word in a format that either slot can hold. It is made part of both callers: otherwise each reading goes through memory.
#[inline(always)]
pub fn read_alu(w: u32) -> Option<AluOperation>
    ensures { result ≡ reading alu_formats w }
{
    let rd = w / 131072 % 32;
    let rs1 = w / 4096 % 32;
    let rs2 = w / 128 % 32;
    let func = w % 16;
    if w / 33554432 % 4 == 0 {
        return arithmetic(w / 4194304 % 8, rd, rs1, Op2::Immediate(w % 4096));
    }
    if w / 4194304 % 32 != 8 {
        return None;
    }
    let pd = w / 131072 % 8;
    let opc = w / 16 % 8;
    match opc {
        0 => arithmetic(func, rd, rs1, Op2::Register(rs2)),
        3 => compare(func, pd, rs1, Op2::Register(rs2)),
        4 => predicate(
            func,
            pd,
            predicate_operand(w / 4096 % 16),
            predicate_operand(w / 128 % 16),
        ),
        5 => Some(AluOperation::BitCopy {
            rd,
            rs1,
            bit: rs2,
            ps: predicate_operand(func),
        }),
        6 => compare(func, pd, rs1, Op2::Immediate(rs2)),
        _ => None,
    }
}

// A first word whose second word is a constant.
pub fn read_long(first: u32, second: u32) -> Option<AluOperation>
    ensures { result ≡ applied (reading long_formats first) second }
{
    if first / 2147483648 % 2 != 1 {
        return None;
    }
    if first / 4194304 % 32 != 31 {
        return None;
    }
    if first / 16 % 8 != 0 {
        return None;
    }
    arithmetic(
        first % 16,
        first / 131072 % 32,
        first / 4096 % 32,
        Op2::Long(second),
    )
}
