// The numbers of functions, special registers, memories and widths in their fields. They stand at the variants (isa). Each type has a function
// of its own: a trait would need an impl for each, of the same line and more around it.
ghost use Rattle.std.specs.Prelude.{◌≡◌};
ghost use Rattle.fields.specs.Fields.{alu_code, multiply_code, compare_code, predicate_code, special_code, kind_code, load_code, store_code, bit};

use isa::{
    AccessKind, AluFunction, CompareFunction, LoadWidth, MultiplyFunction, PredicateFunction,
    Special, StoreWidth,
};

// Table 2.1.
pub fn alu_code(x: AluFunction) -> u32
    ensures { result ≡ alu_code x }
{
    x as u32
}

// Table 2.2.
pub fn multiply_code(x: MultiplyFunction) -> u32
    ensures { result ≡ multiply_code x }
{
    x as u32
}

// Table 2.3.
pub fn compare_code(x: CompareFunction) -> u32
    ensures { result ≡ compare_code x }
{
    x as u32
}

// Table 2.4.
pub fn predicate_code(x: PredicateFunction) -> u32
    ensures { result ≡ predicate_code x }
{
    x as u32
}

// Figure 2.2.
pub fn special_code(x: Special) -> u32
    ensures { result ≡ special_code x }
{
    x as u32
}

// Tables 2.5 and 2.6, the memory.
pub fn kind_code(x: AccessKind) -> u32
    ensures { result ≡ kind_code x }
{
    x as u32
}

// Table 2.5, the width.
pub fn load_code(x: LoadWidth) -> u32
    ensures { result ≡ load_code x }
{
    x as u32
}

// Table 2.6, the width.
pub fn store_code(x: StoreWidth) -> u32
    ensures { result ≡ store_code x }
{
    x as u32
}

pub fn bit(b: bool) -> u32
    ensures { result ≡ bit b }
{
    u32::from(b)
}
