// The operation that a mnemonic and its operands make, by the places of `forms` (assembly).
#![tactic(auto, using(isa::specs::TableLaws::rows))]

ghost use Rattle.std.specs.Prelude.{◌≡◌, ◌/◌, ◌%◌, Some};
ghost use Rattle.isa.specs.Format.{row};
ghost use Rattle.isa.specs.Tables.{alu_table, multiply_table, compare_table, predicate_table, special_table, kind_table, load_table, store_table};
ghost use Rattle.assembly.specs.Forms.{predicate as predicateOf, made};
ghost use Rattle.making.specs.InForms.{in_forms};

use assembly::{Mnemonic, Operand};
use isa::{AluOperation, Op2, Operation, PredicateOperand, StackAmount, StackOperation, Target};
use word::sign::signed;

pub fn predicate_of(o: Operand) -> PredicateOperand
    ensures { result ≡ predicateOf o }
{
    PredicateOperand {
        negated: o.negated,
        predicate: o.number,
    }
}

fn arithmetic(func: u32, rd: u32, rs1: u32, op2: Op2) -> Option<Operation>
    ensures { result ≡ row alu_table func (λ f. Some (Operation.Alu (AluOperation.Arithmetic f rd rs1 op2))) }
{
    let function = isa::tables::alu_function(func)?;
    Some(Operation::Alu(AluOperation::Arithmetic {
        function,
        rd,
        rs1,
        op2,
    }))
}

fn multiply(func: u32, rs1: u32, rs2: u32) -> Option<Operation>
    ensures { result ≡ row multiply_table func (λ f. Some (Operation.Multiply f rs1 rs2)) }
{
    let function = isa::tables::multiply_function(func)?;
    Some(Operation::Multiply { function, rs1, rs2 })
}

fn compare(func: u32, pd: u32, rs1: u32, op2: Op2) -> Option<Operation>
    ensures { result ≡ row compare_table func (λ f. Some (Operation.Alu (AluOperation.Compare f pd rs1 op2))) }
{
    let function = isa::tables::compare_function(func)?;
    Some(Operation::Alu(AluOperation::Compare {
        function,
        pd,
        rs1,
        op2,
    }))
}

fn predicate(func: u32, pd: u32, ps1: PredicateOperand, ps2: PredicateOperand) -> Option<Operation>
    ensures { result ≡ row predicate_table func (λ f. Some (Operation.Alu (AluOperation.Predicate f pd ps1 ps2))) }
{
    let function = isa::tables::predicate_function(func)?;
    Some(Operation::Alu(AluOperation::Predicate {
        function,
        pd,
        ps1,
        ps2,
    }))
}

fn to_special(number: u32, rs1: u32) -> Option<Operation>
    ensures { result ≡ row special_table number (λ s. Some (Operation.Mts s rs1)) }
{
    let special = isa::tables::special(number)?;
    Some(Operation::Mts { special, rs1 })
}

fn from_special(rd: u32, number: u32) -> Option<Operation>
    ensures { result ≡ row special_table number (λ s. Some (Operation.Mfs rd s)) }
{
    let special = isa::tables::special(number)?;
    Some(Operation::Mfs { rd, special })
}

// The memory is in the low two bits of a type.
fn load(func: u32, rd: u32, ra: u32, offset: u32) -> Option<Operation>
    ensures { result ≡ row load_table (func / 4) (λ w. row kind_table (func % 4) (λ k. Some (Operation.Load k w rd ra offset))) }
{
    let width = isa::tables::load_width(func / 4)?;
    let kind = isa::tables::access_kind(func % 4)?;
    Some(Operation::Load {
        kind,
        width,
        rd,
        ra,
        offset,
    })
}

fn store(func: u32, ra: u32, offset: u32, rs: u32) -> Option<Operation>
    ensures { result ≡ row store_table (func / 4) (λ w. row kind_table (func % 4) (λ k. Some (Operation.Store k w ra rs offset))) }
{
    let width = isa::tables::store_width(func / 4)?;
    let kind = isa::tables::access_kind(func % 4)?;
    Some(Operation::Store {
        kind,
        width,
        ra,
        rs,
        offset,
    })
}

fn stack(operation: StackOperation) -> Option<Operation>
    ensures { result ≡ Some (Operation.StackControl operation) }
{
    Some(Operation::StackControl(operation))
}

fn transfer(delayed: bool, target: Target) -> Option<Operation>
    ensures { result ≡ Some (Operation.Transfer delayed target) }
{
    Some(Operation::Transfer { delayed, target })
}

// The forms of the ALU.
#[tactic(auto, using(crate::specs::MakingLaws::not_in_forms), unfolding(assembly::specs::Forms::made, assembly::specs::Forms::forms))]
fn make_alu(m: Mnemonic, a: Operand, b: Operand, c: Operand, d: Operand) -> Option<Operation>
    ensures { result ≡ in_forms 0 8 m.form (made m a b c d) }
{
    let form = m.form;
    let func = m.function;
    let x = a.number;
    let y = b.number;
    let z = c.number;
    match form {
        0 => arithmetic(func, x, y, Op2::Immediate(z)),
        1 => arithmetic(func, x, y, Op2::Register(z)),
        2 => arithmetic(func, x, y, Op2::Long(z)),
        3 => multiply(func, x, y),
        4 => compare(func, x, y, Op2::Register(z)),
        5 => compare(func, x, y, Op2::Immediate(z)),
        6 => predicate(func, x, predicate_of(b), predicate_of(c)),
        7 => Some(Operation::Alu(AluOperation::BitCopy {
            rd: x,
            rs1: y,
            bit: z,
            ps: predicate_of(d),
        })),
        _ => None,
    }
}

// The forms of the special registers, of the memories and of the stack.
#[tactic(auto, using(crate::specs::MakingLaws::not_in_forms), unfolding(assembly::specs::Forms::made, assembly::specs::Forms::forms))]
fn make_access(m: Mnemonic, a: Operand, b: Operand, c: Operand, d: Operand) -> Option<Operation>
    ensures { result ≡ in_forms 8 18 m.form (made m a b c d) }
{
    let form = m.form;
    let func = m.function;
    let x = a.number;
    let y = b.number;
    let z = c.number;
    match form {
        8 => to_special(x, y),
        9 => from_special(x, y),
        10 => load(func, x, y, z),
        11 => store(func, x, y, z),
        12 => stack(StackOperation::Sres(x)),
        13 => stack(StackOperation::Sens(StackAmount::Words(x))),
        14 => stack(StackOperation::Sfree(x)),
        15 => stack(StackOperation::Sspill(StackAmount::Words(x))),
        16 => stack(StackOperation::Sens(StackAmount::Register(x))),
        17 => stack(StackOperation::Sspill(StackAmount::Register(x))),
        _ => None,
    }
}

// The forms of control flow.
#[tactic(auto, using(crate::specs::MakingLaws::not_in_forms), unfolding(assembly::specs::Forms::made, assembly::specs::Forms::forms))]
fn make_flow(m: Mnemonic, a: Operand, b: Operand, c: Operand, d: Operand) -> Option<Operation>
    ensures { result ≡ in_forms 18 27 m.form (made m a b c d) }
{
    let form = m.form;
    let delayed = m.function == 1;
    let x = a.number;
    match form {
        18 => transfer(delayed, Target::Call(x)),
        19 => transfer(delayed, Target::Br(signed(x))),
        20 => transfer(delayed, Target::Brcf(x)),
        21 => Some(Operation::Trap(x)),
        22 => transfer(delayed, Target::Ret),
        23 => Some(Operation::Xret { delayed }),
        24 => transfer(delayed, Target::CallRegister(x)),
        25 => transfer(delayed, Target::BrRegister(x)),
        26 => transfer(delayed, Target::BrcfRegister(x, b.number)),
        _ => None,
    }
}

#[tactic(auto, using(crate::specs::MakingLaws::made_within, crate::specs::MakingLaws::made_last))]
pub fn make(m: Mnemonic, a: Operand, b: Operand, c: Operand, d: Operand) -> Option<Operation>
    ensures { result ≡ made m a b c d }
{
    if m.form < 8 {
        return make_alu(m, a, b, c, d);
    }
    if m.form < 18 {
        return make_access(m, a, b, c, d);
    }
    make_flow(m, a, b, c, d)
}
