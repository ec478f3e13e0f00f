// The marking rules, and what they ask about an operation: the table of `Rules.antt`.
#![tactic(auto)]

ghost use Rattle.std.specs.Prelude.{ℕ, true, false, ◌≡◌};
ghost use Rattle.marking.specs.Marking.{on_special};
ghost use Rattle.marking_rules.specs.Rules.{private_op2, private_amount, of_result, controlling, asked};

use isa::{
    AccessKind, AluOperation, LoadWidth, Op2, Operation, Special, StackAmount, StackOperation,
    StoreWidth, Target,
};
use marking::Marking;

// The marking rules.
#[derive(Clone, Copy)]
pub enum Rule {
    A,
    B,
    C,
    D,
    E,
}

// What the rules ask. What does not apply to an operation is false.
#[derive(Clone, Copy)]
pub struct Asked {
    // For A: a transfer (trap and xret included), stack control, or mts to ss, st, srb, sro, sxb or sxo.
    pub control: bool,
    // For B: a destination is public.
    pub destination: bool,
    // For B: an operand whose value goes to the destination, or the store loaded from, is private.
    pub source: bool,
    // A load or store, which has an address; and for C: the base register of the address is private.
    pub access: bool,
    pub base: bool,
    // For D: a store to a public store; and its value is private.
    pub store: bool,
    pub value: bool,
    // For E: a register operand of a transfer or of stack control is private.
    pub operand: bool,
}

impl Asked {
    fn result(destination: bool, source: bool) -> Asked
        ensures { result ≡ of_result destination source }
    {
        Asked {
            control: false,
            destination,
            source,
            access: false,
            base: false,
            store: false,
            value: false,
            operand: false,
        }
    }

    fn controlling(operand: bool) -> Asked
        ensures { result ≡ controlling operand }
    {
        Asked {
            control: true,
            destination: false,
            source: false,
            access: false,
            base: false,
            store: false,
            value: false,
            operand,
        }
    }
}

// The special registers that are neither predicates nor a product.
fn is_control(special: Special) -> bool
    ensures { result ≡ on_special false false false true special }
{
    match special {
        Special::S0 => false,
        Special::Sl => false,
        Special::Sh => false,
        Special::Ss => true,
        Special::St => true,
        Special::Srb => true,
        Special::Sro => true,
        Special::Sxb => true,
        Special::Sxo => true,
    }
}

fn private_op2(m: Marking, o: Op2) -> bool
    ensures { result ≡ private_op2 m o }
{
    match o {
        Op2::Register(r) => m.private_register(r),
        Op2::Immediate(_) => false,
        Op2::Long(_) => false,
    }
}

fn private_amount(m: Marking, a: StackAmount) -> bool
    ensures { result ≡ private_amount m a }
{
    match a {
        StackAmount::Words(_) => false,
        StackAmount::Register(r) => m.private_register(r),
    }
}

fn private_stack(m: Marking, o: StackOperation) -> bool
    ensures { result ≡ (asked m (Operation.StackControl o)).operand }
{
    match o {
        StackOperation::Sres(_) => false,
        StackOperation::Sens(a) => private_amount(m, a),
        StackOperation::Sfree(_) => false,
        StackOperation::Sspill(a) => private_amount(m, a),
    }
}

// The same with delay and without.
fn private_target(m: Marking, t: Target) -> bool
    ensures { result ≡ (asked m (Operation.Transfer true t)).operand }
{
    match t {
        Target::Call(_) => false,
        Target::CallRegister(r) => m.private_register(r),
        Target::Br(_) => false,
        Target::BrRegister(r) => m.private_register(r),
        Target::Brcf(_) => false,
        Target::BrcfRegister(b, o) => m.private_register(b) | m.private_register(o),
        Target::Ret => false,
    }
}

pub fn asked_of_alu(m: Marking, o: AluOperation) -> Asked
    ensures { result ≡ asked m (Operation.Alu o) }
{
    match o {
        AluOperation::Arithmetic { rd, rs1, op2, .. } => {
            Asked::result(
                m.public_register(rd),
                m.private_register(rs1) | private_op2(m, op2),
            )
        }
        AluOperation::Compare { pd, rs1, op2, .. } => {
            Asked::result(
                m.public_predicate(pd),
                m.private_register(rs1) | private_op2(m, op2),
            )
        }
        AluOperation::Predicate { pd, ps1, ps2, .. } => {
            Asked::result(
                m.public_predicate(pd),
                m.private_operand(ps1) | m.private_operand(ps2),
            )
        }
        AluOperation::BitCopy { rd, rs1, ps, .. } => {
            Asked::result(
                m.public_register(rd),
                m.private_register(rs1) | m.private_operand(ps),
            )
        }
    }
}

fn asked_of_mts(m: Marking, special: Special, rs1: u32) -> Asked
    ensures { result ≡ asked m (Operation.Mts special rs1) }
{
    Asked {
        control: is_control(special),
        destination: m.public_special(special),
        source: m.private_register(rs1),
        access: false,
        base: false,
        store: false,
        value: false,
        operand: false,
    }
}

// Whatever the width and the offset.
fn asked_of_load(m: Marking, kind: AccessKind, rd: u32, ra: u32) -> Asked
    ensures { (w : LoadWidth) (offset : ℕ) → result ≡ asked m (Operation.Load kind w rd ra offset) }
{
    Asked {
        control: false,
        destination: m.public_register(rd),
        source: m.private_store(kind),
        access: true,
        base: m.private_register(ra),
        store: false,
        value: false,
        operand: false,
    }
}

fn asked_of_store(m: Marking, kind: AccessKind, ra: u32, rs: u32) -> Asked
    ensures { (w : StoreWidth) (offset : ℕ) → result ≡ asked m (Operation.Store kind w ra rs offset) }
{
    Asked {
        control: false,
        destination: false,
        source: false,
        access: true,
        base: m.private_register(ra),
        store: !m.private_store(kind),
        value: m.private_register(rs),
        operand: false,
    }
}

pub fn asked_of(m: Marking, o: Operation) -> Asked
    ensures { result ≡ asked m o }
{
    match o {
        Operation::Alu(a) => asked_of_alu(m, a),
        Operation::Multiply { rs1, rs2, .. } => {
            Asked::result(
                !m.sl | !m.sh,
                m.private_register(rs1) | m.private_register(rs2),
            )
        }
        Operation::Mts { special, rs1 } => asked_of_mts(m, special, rs1),
        Operation::Mfs { rd, special } => {
            Asked::result(m.public_register(rd), m.private_special(special))
        }
        Operation::Load { kind, rd, ra, .. } => asked_of_load(m, kind, rd, ra),
        Operation::Store { kind, ra, rs, .. } => asked_of_store(m, kind, ra, rs),
        Operation::StackControl(s) => Asked::controlling(private_stack(m, s)),
        Operation::Transfer { target, .. } => Asked::controlling(private_target(m, target)),
        Operation::Trap(_) => Asked::controlling(false),
        Operation::Xret { .. } => Asked::controlling(false),
    }
}
