// The words of instructions, and of bundles.
ghost use Rattle.std.specs.Prelude.{◌≡◌};
ghost use Rattle.isa.specs.Formats.{long_formats, alu_formats, first_formats};
ghost use Rattle.fields.specs.Place.{writing};
ghost use Rattle.fields.specs.Fields.{long_fields, alu_fields, amount_fields, first_fields};
ghost use Rattle.encoder.specs.Encode.{guarded, slot_word, alone, beside, written};

use crate::bundles::{constant_of, either_slot};
use crate::{CodeWords, Written};
use answers::Refusal;
use fields::codes::{
    alu_code, bit, compare_code, kind_code, load_code, multiply_code, predicate_code, special_code,
    store_code,
};
use fields::place::{branch_number, operand_number, put};
use isa::{
    AluFunction, AluInstruction, AluOperation, Bundle, CompareFunction, Instruction, Op2,
    Operation, PredicateOperand, StackAmount, StackOperation, Target,
};

fn arithmetic(w: Option<u32>, function: AluFunction, rd: u32, rs1: u32, op2: Op2) -> Option<u32>
    ensures { result ≡ writing alu_formats w (alu_fields (AluOperation.Arithmetic function rd rs1 op2)) }
{
    let func = alu_code(function);
    match op2 {
        Op2::Register(rs2) => format_words::alu(w, 0, 32, rd, 32, rs1, rs2, func),
        Op2::Immediate(n) => format_words::alu_immediate(w, func, rd, rs1, n),
        Op2::Long(_) => None,
    }
}

fn compare(w: Option<u32>, function: CompareFunction, pd: u32, rs1: u32, op2: Op2) -> Option<u32>
    ensures { result ≡ writing alu_formats w (alu_fields (AluOperation.Compare function pd rs1 op2)) }
{
    let func = compare_code(function);
    match op2 {
        Op2::Register(rs2) => format_words::alu(w, 3, 8, pd, 32, rs1, rs2, func),
        Op2::Immediate(n) => format_words::alu(w, 6, 8, pd, 32, rs1, n, func),
        Op2::Long(_) => None,
    }
}

fn alu_word(w: Option<u32>, a: AluOperation) -> Option<u32>
    ensures { result ≡ writing alu_formats w (alu_fields a) }
{
    match a {
        AluOperation::Arithmetic {
            function,
            rd,
            rs1,
            op2,
        } => arithmetic(w, function, rd, rs1, op2),
        AluOperation::Compare {
            function,
            pd,
            rs1,
            op2,
        } => compare(w, function, pd, rs1, op2),
        AluOperation::Predicate {
            function,
            pd,
            ps1,
            ps2,
        } => format_words::alu(
            w,
            4,
            8,
            pd,
            16,
            operand_number(ps1),
            operand_number(ps2),
            predicate_code(function),
        ),
        AluOperation::BitCopy { rd, rs1, bit, ps } => format_words::alu(
            w,
            5,
            32,
            rd,
            32,
            rs1,
            bit,
            operand_number(ps),
        ),
    }
}

fn amount_word(w: Option<u32>, op: u32, amount: StackAmount) -> Option<u32>
    ensures { result ≡ writing first_formats w (amount_fields op amount) }
{
    match amount {
        StackAmount::Words(n) => format_words::stack(w, 0, op, 262144, 1, n),
        StackAmount::Register(n) => format_words::stack(w, 1, op, 32, 4096, n),
    }
}

fn stack_word(w: Option<u32>, o: StackOperation) -> Option<u32>
    ensures { result ≡ writing first_formats w (first_fields (Operation.StackControl o)) }
{
    match o {
        StackOperation::Sres(n) => amount_word(w, 0, StackAmount::Words(n)),
        StackOperation::Sens(a) => amount_word(w, 1, a),
        StackOperation::Sfree(n) => amount_word(w, 2, StackAmount::Words(n)),
        StackOperation::Sspill(a) => amount_word(w, 3, a),
    }
}

fn transfer_word(w: Option<u32>, delayed: bool, target: Target) -> Option<u32>
    ensures { result ≡ writing first_formats w (first_fields (Operation.Transfer delayed target)) }
{
    let d = bit(delayed);
    match target {
        Target::Call(n) => format_words::flow_immediate(w, d, n),
        Target::Br(z) => format_words::flow_immediate(w, 2 + d, branch_number(z)),
        Target::Brcf(n) => format_words::flow_immediate(w, 4 + d, n),
        Target::CallRegister(n) => format_words::flow_single(w, d, n, 0),
        Target::BrRegister(n) => format_words::flow_single(w, d, n, 1),
        Target::BrcfRegister(m, n) => format_words::flow_two(w, d, m, n, 2),
        Target::Ret => format_words::flow_implicit(w, d, 0),
    }
}

fn first_word(w: Option<u32>, o: Operation) -> Option<u32>
    ensures { result ≡ writing first_formats w (first_fields o) }
{
    match o {
        Operation::Alu(_) => None,
        Operation::Multiply { function, rs1, rs2 } => format_words::multiply(
            w,
            rs1,
            rs2,
            multiply_code(function),
        ),
        Operation::Mts { special, rs1 } => format_words::special(
            w,
            2,
            4096,
            rs1,
            special_code(special),
        ),
        Operation::Mfs { rd, special } => format_words::special(
            w,
            3,
            131072,
            rd,
            special_code(special),
        ),
        Operation::Load {
            kind,
            width,
            rd,
            ra,
            offset,
        } => format_words::load(w, rd, ra, load_code(width), kind_code(kind), offset),
        Operation::Store {
            kind,
            width,
            ra,
            rs,
            offset,
        } => format_words::store(w, store_code(width), kind_code(kind), ra, rs, offset),
        Operation::StackControl(o) => stack_word(w, o),
        Operation::Transfer { delayed, target } => transfer_word(w, delayed, target),
        Operation::Trap(n) => format_words::flow_immediate(w, 6, n),
        Operation::Xret { delayed } => format_words::flow_implicit(w, bit(delayed), 1),
    }
}

// A word that has its guard and nothing else.
fn guarded(g: PredicateOperand) -> Option<u32>
    ensures { result ≡ guarded g }
{
    put(Some(0), 16, 134217728, operand_number(g))
}

// The word of a slot: `two` is its bit 31.
fn slot_word(two: u32, g: PredicateOperand, o: Operation) -> Option<u32>
    ensures { result ≡ slot_word two g o }
{
    let w = put(guarded(g), 2, 2147483648, two);
    match either_slot(o) {
        Some(a) => alu_word(w, a),
        None => first_word(w, o),
    }
}

fn long_in_format(w: Option<u32>, a: AluOperation) -> Option<u32>
    ensures { result ≡ writing long_formats w (long_fields a) }
{
    match a {
        AluOperation::Arithmetic {
            function,
            rd,
            rs1,
            op2: Op2::Long(_),
        } => format_words::alu_long(w, rd, rs1, alu_code(function)),
        _ => None,
    }
}

fn alone(w: Option<u32>) -> Written
    ensures { result ≡ alone w }
{
    w.map(CodeWords::One).ok_or(Refusal::NoWords)
}

fn beside(w: Option<u32>, v: Option<u32>) -> Written
    ensures { result ≡ beside w v }
{
    let first = w.ok_or(Refusal::NoWords)?;
    let second = v.ok_or(Refusal::NoWords)?;
    Ok(CodeWords::Two(first, second))
}

// A bundle of one word.
pub(crate) fn write_one(i: Instruction) -> Written
    ensures { result ≡ written (Bundle.One i) }
{
    alone(slot_word(0, i.guard, i.operation))
}

// A bundle of two instructions.
pub(crate) fn write_two(i: Instruction, j: AluInstruction) -> Written
    ensures { result ≡ written (Bundle.Two i j) }
{
    let w = slot_word(1, i.guard, i.operation);
    beside(w, slot_word(0, j.guard, Operation::Alu(j.operation)))
}

// A long immediate and its constant.
pub(crate) fn write_long(i: Instruction) -> Written
    ensures { result ≡ written (Bundle.Long i) }
{
    let Some(a) = either_slot(i.operation) else {
        return Err(Refusal::NoWords);
    };
    beside(long_in_format(guarded(i.guard), a), constant_of(a))
}

// The words of a bundle: 12 for a number that does not fit its field, and for a bundle that the slots do not allow.
pub fn write(b: Bundle) -> Written
    ensures { result ≡ written b }
{
    match b {
        Bundle::Undecodable => Err(Refusal::NoWords),
        Bundle::One(i) => write_one(i),
        Bundle::Two(i, j) => write_two(i, j),
        Bundle::Long(i) => write_long(i),
    }
}
