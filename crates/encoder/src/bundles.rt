// Bundles asked for by one instruction or by any two, written.
ghost use Rattle.std.specs.Prelude.{◌≡◌, Some};
ghost use Rattle.encoder.specs.Encode.{either_slot, constant_in, constant_of, single, pair, written};

use crate::Written;
use crate::words::{write_long, write_one, write_two};
use answers::Refusal;
use isa::{AluInstruction, AluOperation, Instruction, Op2, Operation};

// The operation as one that either slot may hold.
pub(crate) fn either_slot(o: Operation) -> Option<AluOperation>
    ensures { result ≡ either_slot o }
{
    match o {
        Operation::Alu(a) => Some(a),
        _ => None,
    }
}

fn constant_in(op2: Op2) -> Option<u32>
    ensures { result ≡ constant_in op2 }
{
    match op2 {
        Op2::Long(n) => Some(n),
        _ => None,
    }
}

// The constant of a long immediate.
pub(crate) fn constant_of(a: AluOperation) -> Option<u32>
    ensures { result ≡ constant_of (Some a) }
{
    match a {
        AluOperation::Arithmetic { op2, .. } => constant_in(op2),
        _ => None,
    }
}

// The words of a bundle of one instruction: two if it has a long constant.
pub fn write_single(i: Instruction) -> Written
    ensures { result ≡ written (single i) }
{
    let Some(a) = either_slot(i.operation) else {
        return write_one(i);
    };
    if constant_of(a).is_none() {
        return write_one(i);
    }
    write_long(i)
}

// The words of a bundle of two instructions. What slot two cannot hold is refused here, and not left to whoever asks.
pub fn write_pair(i: Instruction, j: Instruction) -> Written
    ensures { result ≡ written (pair i j) }
{
    let Some(operation) = either_slot(j.operation) else {
        return Err(Refusal::NoWords);
    };
    write_two(
        i,
        AluInstruction {
            guard: j.guard,
            operation,
        },
    )
}
