// The tables of function codes: the row of a code, or none where the code is unused. Each is a match, and not a search by the numbers that the
// variants stand for: every bundle is decoded by these.
ghost use Rattle.std.specs.Prelude.{◌≡◌, Some};
ghost use Rattle.isa.specs.Format.{row};
ghost use Rattle.isa.specs.Tables.{alu_table, multiply_table, compare_table, predicate_table, special_table, kind_table, load_table, store_table};

use crate::{
    AccessKind, AluFunction, CompareFunction, LoadWidth, MultiplyFunction, PredicateFunction,
    Special, StoreWidth,
};

// Table 2.1.
pub fn alu_function(code: u32) -> Option<AluFunction>
    ensures { result ≡ row alu_table code Some }
{
    match code {
        0 => Some(AluFunction::Add),
        1 => Some(AluFunction::Sub),
        2 => Some(AluFunction::Xor),
        3 => Some(AluFunction::Sl),
        4 => Some(AluFunction::Sr),
        5 => Some(AluFunction::Sra),
        6 => Some(AluFunction::Or),
        7 => Some(AluFunction::And),
        11 => Some(AluFunction::Nor),
        12 => Some(AluFunction::Shadd),
        13 => Some(AluFunction::Shadd2),
        _ => None, // 8 to 10 too, which table 2.1 calls unused.
    }
}

// Table 2.2.
pub fn multiply_function(code: u32) -> Option<MultiplyFunction>
    ensures { result ≡ row multiply_table code Some }
{
    match code {
        0 => Some(MultiplyFunction::Mul),
        1 => Some(MultiplyFunction::Mulu),
        _ => None,
    }
}

// Table 2.3.
pub fn compare_function(code: u32) -> Option<CompareFunction>
    ensures { result ≡ row compare_table code Some }
{
    match code {
        0 => Some(CompareFunction::Cmpeq),
        1 => Some(CompareFunction::Cmpneq),
        2 => Some(CompareFunction::Cmplt),
        3 => Some(CompareFunction::Cmple),
        4 => Some(CompareFunction::Cmpult),
        5 => Some(CompareFunction::Cmpule),
        6 => Some(CompareFunction::Btest),
        _ => None,
    }
}

// Table 2.4.
pub fn predicate_function(code: u32) -> Option<PredicateFunction>
    ensures { result ≡ row predicate_table code Some }
{
    match code {
        6 => Some(PredicateFunction::Por),
        7 => Some(PredicateFunction::Pand),
        10 => Some(PredicateFunction::Pxor),
        _ => None,
    }
}

// Figure 2.2.
pub fn special(code: u32) -> Option<Special>
    ensures { result ≡ row special_table code Some }
{
    match code {
        0 => Some(Special::S0),
        2 => Some(Special::Sl),
        3 => Some(Special::Sh),
        5 => Some(Special::Ss),
        6 => Some(Special::St),
        7 => Some(Special::Srb),
        8 => Some(Special::Sro),
        9 => Some(Special::Sxb),
        10 => Some(Special::Sxo),
        _ => None,
    }
}

// Tables 2.5 and 2.6, the memory.
pub fn access_kind(code: u32) -> Option<AccessKind>
    ensures { result ≡ row kind_table code Some }
{
    match code {
        0 => Some(AccessKind::Stack),
        1 => Some(AccessKind::Local),
        2 => Some(AccessKind::Cached),
        3 => Some(AccessKind::Main),
        _ => None,
    }
}

// Table 2.5, the width.
pub fn load_width(code: u32) -> Option<LoadWidth>
    ensures { result ≡ row load_table code Some }
{
    match code {
        0 => Some(LoadWidth::Word),
        1 => Some(LoadWidth::Half),
        2 => Some(LoadWidth::Byte),
        3 => Some(LoadWidth::HalfUnsigned),
        4 => Some(LoadWidth::ByteUnsigned),
        _ => None,
    }
}

// Table 2.6, the width.
pub fn store_width(code: u32) -> Option<StoreWidth>
    ensures { result ≡ row store_table code Some }
{
    match code {
        0 => Some(StoreWidth::Word),
        1 => Some(StoreWidth::Half),
        2 => Some(StoreWidth::Byte),
        _ => None,
    }
}
