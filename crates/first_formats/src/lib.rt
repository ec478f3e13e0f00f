// The formats that only slot one can hold.
#![tactic(auto, using(isa::specs::TableLaws::rows), unfolding(isa::specs::Format::reading))]

ghost use Rattle.std.specs.Prelude.{◌≡◌, ◌/◌, ◌%◌, Some};
ghost use Rattle.isa.specs.Format.{reading};
ghost use Rattle.isa.specs.Formats.{first_formats};

use isa::{Operation, StackAmount, StackOperation, Target};

// ALUm.
fn read_multiply(w: u32) -> Option<Operation>
    requires { w / 4194304 % 32 ≡ 8 }
    ensures { result ≡ reading first_formats w }
{
    if w / 16 % 8 != 2 {
        return None;
    }
    let function = isa::tables::multiply_function(w % 16)?;
    Some(Operation::Multiply {
        function,
        rs1: w / 4096 % 32,
        rs2: w / 128 % 32,
    })
}

// SPCt and SPCf.
fn read_special(w: u32) -> Option<Operation>
    requires { w / 4194304 % 32 ≡ 9 }
    ensures { result ≡ reading first_formats w }
{
    let opc = w / 16 % 8;
    if opc == 2 {
        let special = isa::tables::special(w % 16)?;
        return Some(Operation::Mts {
            special,
            rs1: w / 4096 % 32,
        });
    }
    if opc == 3 {
        let special = isa::tables::special(w % 16)?;
        return Some(Operation::Mfs {
            rd: w / 131072 % 32,
            special,
        });
    }
    None
}

// LDT.
fn read_load(w: u32) -> Option<Operation>
    requires { w / 4194304 % 32 ≡ 10 }
    ensures { result ≡ reading first_formats w }
{
    let width = isa::tables::load_width(w / 512 % 8)?;
    let kind = isa::tables::access_kind(w / 128 % 4)?;
    Some(Operation::Load {
        kind,
        width,
        rd: w / 131072 % 32,
        ra: w / 4096 % 32,
        offset: w % 128,
    })
}

// STT.
fn read_store(w: u32) -> Option<Operation>
    requires { w / 4194304 % 32 ≡ 11 }
    ensures { result ≡ reading first_formats w }
{
    let width = isa::tables::store_width(w / 524288 % 8)?;
    let kind = isa::tables::access_kind(w / 131072 % 4)?;
    Some(Operation::Store {
        kind,
        width,
        ra: w / 4096 % 32,
        rs: w / 128 % 32,
        offset: w % 128,
    })
}

fn stack_control(operation: StackOperation) -> Option<Operation>
    ensures { result ≡ Some (Operation.StackControl operation) }
{
    Some(Operation::StackControl(operation))
}

// STCi and STCr.
#[tactic(auto, unfolding(isa::specs::Format::reading, isa::specs::Format::row))]
fn read_stack_control(w: u32) -> Option<Operation>
    requires { w / 4194304 % 32 ≡ 12 }
    ensures { result ≡ reading first_formats w }
{
    let op = w / 1048576 % 4;
    let form = w / 262144 % 4;
    if form == 0 {
        let words = w % 262144;
        match op {
            0 => return stack_control(StackOperation::Sres(words)),
            1 => return stack_control(StackOperation::Sens(StackAmount::Words(words))),
            2 => return stack_control(StackOperation::Sfree(words)),
            _ => return stack_control(StackOperation::Sspill(StackAmount::Words(words))),
        }
    }
    if form != 1 {
        return None;
    }
    let rs = w / 4096 % 32;
    match op {
        1 => stack_control(StackOperation::Sens(StackAmount::Register(rs))),
        3 => stack_control(StackOperation::Sspill(StackAmount::Register(rs))),
        _ => None,
    }
}

fn transfer(delayed: bool, target: Target) -> Option<Operation>
    ensures { result ≡ Some (Operation.Transfer delayed target) }
{
    Some(Operation::Transfer { delayed, target })
}

// CFLi.
#[tactic(auto, using(crate::specs::FlowLaws::flow_first), unfolding(isa::specs::Format::row))]
fn read_flow(w: u32) -> Option<Operation>
    requires { w / 33554432 % 4 ≡ 2 }
    ensures { result ≡ reading first_formats w }
{
    let op = w / 4194304 % 8;
    let words = w % 4194304;
    match op {
        0 => transfer(false, Target::Call(words)),
        1 => transfer(true, Target::Call(words)),
        2 => transfer(false, Target::Br(word::sign::signed_field_22(w))),
        3 => transfer(true, Target::Br(word::sign::signed_field_22(w))),
        4 => transfer(false, Target::Brcf(words)),
        5 => transfer(true, Target::Brcf(words)),
        6 => Some(Operation::Trap(words)),
        _ => None,
    }
}

// CFLri, CFLrs and CFLrt.
#[tactic(auto, using(crate::specs::FlowLaws::register_first), unfolding(isa::specs::Format::row))]
fn read_flow_register(w: u32) -> Option<Operation>
    requires { w / 8388608 % 16 ≡ 12 }
    ensures { result ≡ reading first_formats w }
{
    let delayed = w / 4194304 % 2 == 1;
    let rs1 = w / 4096 % 32;
    let form = w / 4 % 4;
    let op = w % 4;
    if form == 0 {
        match op {
            0 => return transfer(delayed, Target::Ret),
            1 => return Some(Operation::Xret { delayed }),
            _ => return None,
        }
    }
    if form == 1 {
        match op {
            0 => return transfer(delayed, Target::CallRegister(rs1)),
            1 => return transfer(delayed, Target::BrRegister(rs1)),
            _ => return None,
        }
    }
    if form != 2 {
        return None;
    }
    if op != 2 {
        return None;
    }
    transfer(delayed, Target::BrcfRegister(rs1, w / 128 % 32))
}

// A word in a format that only slot one can hold, by its opcode.
pub fn read_first(w: u32) -> Option<Operation>
    ensures { result ≡ reading first_formats w }
{
    let opcode = w / 4194304 % 32;
    match opcode {
        8 => return read_multiply(w),
        9 => return read_special(w),
        10 => return read_load(w),
        11 => return read_store(w),
        12 => return read_stack_control(w),
        _ => {}
    }
    if w / 33554432 % 4 == 2 {
        return read_flow(w);
    }
    if w / 8388608 % 16 == 12 {
        return read_flow_register(w);
    }
    None
}
