// How each instruction is shown, by the places of `forms` (specs/Forms.antt).
ghost use Rattle.std.specs.Prelude.{◌≡◌, ◌+◌, ◌*◌};
ghost use Rattle.fields.specs.Fields.{kind_code, load_code, store_code};
ghost use Rattle.assembly.specs.Operands.{plain as plain_of};
ghost use Rattle.disassembler.specs.Shown.{show_four, show_three, show_two, show_one, show_amount, of_predicate, shown};

use crate::Shown;
use assembly::operands::plain;
use assembly::{Mnemonic, Operand};
use fields::codes::{
    alu_code, bit, compare_code, kind_code, load_code, multiply_code, predicate_code, special_code,
    store_code,
};
use isa::{
    AccessKind, AluFunction, AluOperation, CompareFunction, LoadWidth, Op2, Operation,
    PredicateOperand, StackAmount, StackOperation, StoreWidth, Target,
};
use word::sign::unsigned;

fn four(form: u32, function: u32, a: Operand, b: Operand, c: Operand, d: Operand) -> Shown
    ensures { result ≡ show_four form function a b c d }
{
    Shown {
        mnemonic: Mnemonic { form, function },
        a,
        b,
        c,
        d,
    }
}

fn three(form: u32, function: u32, x: u32, y: u32, z: u32) -> Shown
    ensures { result ≡ show_three form function (plain_of x) (plain_of y) (plain_of z) }
{
    four(form, function, plain(x), plain(y), plain(z), plain(0))
}

fn two(form: u32, function: u32, x: u32, y: u32) -> Shown
    ensures { result ≡ show_two form function (plain_of x) (plain_of y) }
{
    three(form, function, x, y, 0)
}

fn one(form: u32, function: u32, x: u32) -> Shown
    ensures { result ≡ show_one form function (plain_of x) }
{
    three(form, function, x, 0, 0)
}

fn of_predicate(p: PredicateOperand) -> Operand
    ensures { result ≡ of_predicate p }
{
    Operand {
        negated: p.negated,
        number: p.predicate,
    }
}

fn show_arithmetic(f: AluFunction, rd: u32, rs1: u32, op2: Op2) -> Shown
    ensures { result ≡ shown (Operation.Alu (AluOperation.Arithmetic f rd rs1 op2)) }
{
    let function = alu_code(f);
    match op2 {
        Op2::Immediate(n) => three(0, function, rd, rs1, n),
        Op2::Register(r) => three(1, function, rd, rs1, r),
        Op2::Long(n) => three(2, function, rd, rs1, n),
    }
}

// A compare has no long constant.
fn show_compare(f: CompareFunction, pd: u32, rs1: u32, op2: Op2) -> Shown
    ensures { result ≡ shown (Operation.Alu (AluOperation.Compare f pd rs1 op2)) }
{
    let function = compare_code(f);
    match op2 {
        Op2::Register(r) => three(4, function, pd, rs1, r),
        Op2::Immediate(n) => three(5, function, pd, rs1, n),
        Op2::Long(_) => one(27, 0, 0),
    }
}

fn show_alu(a: AluOperation) -> Shown
    ensures { result ≡ shown (Operation.Alu a) }
{
    match a {
        AluOperation::Arithmetic {
            function,
            rd,
            rs1,
            op2,
        } => show_arithmetic(function, rd, rs1, op2),
        AluOperation::Compare {
            function,
            pd,
            rs1,
            op2,
        } => show_compare(function, pd, rs1, op2),
        AluOperation::Predicate {
            function,
            pd,
            ps1,
            ps2,
        } => four(
            6,
            predicate_code(function),
            plain(pd),
            of_predicate(ps1),
            of_predicate(ps2),
            plain(0),
        ),
        AluOperation::BitCopy { rd, rs1, bit, ps } => {
            four(7, 0, plain(rd), plain(rs1), plain(bit), of_predicate(ps))
        }
    }
}

// An amount, by the form of words and that of a register.
fn show_amount(words: u32, register: u32, amount: StackAmount) -> Shown
    ensures { result ≡ show_amount words register amount }
{
    match amount {
        StackAmount::Words(n) => one(words, 0, n),
        StackAmount::Register(r) => one(register, 0, r),
    }
}

fn show_stack(s: StackOperation) -> Shown
    ensures { result ≡ shown (Operation.StackControl s) }
{
    match s {
        StackOperation::Sres(n) => one(12, 0, n),
        StackOperation::Sens(amount) => show_amount(13, 16, amount),
        StackOperation::Sfree(n) => one(14, 0, n),
        StackOperation::Sspill(amount) => show_amount(15, 17, amount),
    }
}

fn show_transfer(delayed: bool, target: Target) -> Shown
    ensures { result ≡ shown (Operation.Transfer delayed target) }
{
    let d = bit(delayed);
    match target {
        Target::Call(n) => one(18, d, n),
        Target::Br(z) => one(19, d, unsigned(z)),
        Target::Brcf(n) => one(20, d, n),
        Target::Ret => one(22, d, 0),
        Target::CallRegister(r) => one(24, d, r),
        Target::BrRegister(r) => one(25, d, r),
        Target::BrcfRegister(r, s) => two(26, d, r, s),
    }
}

// The width and the memory in one number.
fn load_type(width: LoadWidth, kind: AccessKind) -> u32
    ensures { result ≡ load_code width * 4 + kind_code kind }
{
    load_code(width) * 4 + kind_code(kind)
}

fn store_type(width: StoreWidth, kind: AccessKind) -> u32
    ensures { result ≡ store_code width * 4 + kind_code kind }
{
    store_code(width) * 4 + kind_code(kind)
}

pub fn show(o: Operation) -> Shown
    ensures { result ≡ shown o }
{
    match o {
        Operation::Alu(a) => show_alu(a),
        Operation::Multiply { function, rs1, rs2 } => two(3, multiply_code(function), rs1, rs2),
        Operation::Mts { special, rs1 } => two(8, 0, special_code(special), rs1),
        Operation::Mfs { rd, special } => two(9, 0, rd, special_code(special)),
        Operation::Load {
            kind,
            width,
            rd,
            ra,
            offset,
        } => three(10, load_type(width, kind), rd, ra, offset),
        Operation::Store {
            kind,
            width,
            ra,
            rs,
            offset,
        } => three(11, store_type(width, kind), ra, offset, rs),
        Operation::StackControl(s) => show_stack(s),
        Operation::Transfer { delayed, target } => show_transfer(delayed, target),
        Operation::Trap(n) => one(21, 0, n),
        Operation::Xret { delayed } => one(23, bit(delayed), 0),
    }
}
