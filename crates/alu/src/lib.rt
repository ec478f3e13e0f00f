// What the ALU, compare, predicate and multiply functions give.
#![tactic(auto)]

ghost use Rattle.std.specs.Prelude.{◌≡◌};
ghost use Rattle.alu.specs.Alu.{arithmetic, multiply, compare, combine};

use isa::{AluFunction, CompareFunction, MultiplyFunction, PredicateFunction};

#[tactic(auto, unfolding(crate::specs::Alu::arithmetic))]
pub fn arithmetic(function: AluFunction, a: u32, b: u32) -> u32
    ensures { result ≡ arithmetic function a b }
{
    match function {
        AluFunction::Add => word::arithmetic::add(a, b),
        AluFunction::Sub => word::arithmetic::sub(a, b),
        AluFunction::Xor => a ^ b,
        AluFunction::Sl => word::bits::shift_left(a, b),
        AluFunction::Sr => word::bits::shift_right(a, b),
        AluFunction::Sra => word::bits::shift_right_signed(a, b),
        AluFunction::Or => a | b,
        AluFunction::And => a & b,
        AluFunction::Nor => word::bits::nor(a, b),
        AluFunction::Shadd => word::arithmetic::add(word::bits::shift_left(a, 1), b),
        AluFunction::Shadd2 => word::arithmetic::add(word::bits::shift_left(a, 2), b),
    }
}

#[tactic(auto, unfolding(crate::specs::Alu::multiply))]
pub fn multiply(function: MultiplyFunction, a: u32, b: u32) -> u64
    ensures { result ≡ multiply function a b }
{
    match function {
        MultiplyFunction::Mul => word::arithmetic::product_signed(a, b),
        MultiplyFunction::Mulu => word::arithmetic::product(a, b),
    }
}

#[tactic(auto, unfolding(crate::specs::Alu::compare))]
pub fn compare(function: CompareFunction, a: u32, b: u32) -> bool
    ensures { result ≡ compare function a b }
{
    match function {
        CompareFunction::Cmpeq => a == b,
        CompareFunction::Cmpneq => a != b,
        CompareFunction::Cmplt => word::sign::less_signed(a, b),
        CompareFunction::Cmple => word::sign::less_equal_signed(a, b),
        CompareFunction::Cmpult => a < b,
        CompareFunction::Cmpule => a <= b,
        CompareFunction::Btest => word::bits::test_bit(a, b),
    }
}

#[tactic(auto, unfolding(crate::specs::Alu::combine))]
pub fn combine(function: PredicateFunction, a: bool, b: bool) -> bool
    ensures { result ≡ combine function a b }
{
    match function {
        PredicateFunction::Por => a | b,
        PredicateFunction::Pand => a & b,
        PredicateFunction::Pxor => a != b,
    }
}
