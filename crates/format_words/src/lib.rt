// The words of the formats: fixed bits and fields are put, in the order of `Formats` in isa, into a word that has its guard. Where formats
// share a function its contract has the numbers put; the callers in encoder join them to their formats.
#![tactic(auto)]

ghost use Rattle.std.specs.Prelude.{◌≡◌, [], ◌∷◌};
ghost use Rattle.isa.specs.Formats.{long_formats, alu_formats, first_formats};
ghost use Rattle.fields.specs.Place.{at, grown, in_format};

use fields::place::put;

// ALUr, ALUc, ALUp, ALUb and ALUci, which differ in opc and in the limits of three fields.
pub fn alu(
    w: Option<u32>,
    opc: u32,
    limit: u32,
    a: u32,
    others: u32,
    b: u32,
    c: u32,
    func: u32,
) -> Option<u32>
    ensures { result ≡ grown (grown (grown (grown (grown (grown w 32 4194304 8) 8 16 opc) limit 131072 a) others 4096 b) others 128 c) 16 1 func }
{
    let w = put(w, 32, 4194304, 8);
    let w = put(w, 8, 16, opc);
    let w = put(w, limit, 131072, a);
    let w = put(w, others, 4096, b);
    let w = put(w, others, 128, c);
    put(w, 16, 1, func)
}

// ALUi.
pub fn alu_immediate(w: Option<u32>, func: u32, rd: u32, rs1: u32, imm: u32) -> Option<u32>
    ensures { result ≡ in_format w (at alu_formats 0) (func ∷ rd ∷ rs1 ∷ imm ∷ []) }
{
    let w = put(w, 4, 33554432, 0);
    let w = put(w, 8, 4194304, func);
    let w = put(w, 32, 131072, rd);
    let w = put(w, 32, 4096, rs1);
    put(w, 4096, 1, imm)
}

// ALUl, which sets bit 31 itself.
pub fn alu_long(w: Option<u32>, rd: u32, rs1: u32, func: u32) -> Option<u32>
    ensures { result ≡ in_format w (at long_formats 0) (rd ∷ rs1 ∷ func ∷ []) }
{
    let w = put(w, 2, 2147483648, 1);
    let w = put(w, 32, 4194304, 31);
    let w = put(w, 8, 16, 0);
    let w = put(w, 32, 131072, rd);
    let w = put(w, 32, 4096, rs1);
    put(w, 16, 1, func)
}

// ALUm.
pub fn multiply(w: Option<u32>, rs1: u32, rs2: u32, func: u32) -> Option<u32>
    ensures { result ≡ in_format w (at first_formats 0) (rs1 ∷ rs2 ∷ func ∷ []) }
{
    let w = put(w, 32, 4194304, 8);
    let w = put(w, 8, 16, 2);
    let w = put(w, 32, 4096, rs1);
    let w = put(w, 32, 128, rs2);
    put(w, 16, 1, func)
}

// SPCt and SPCf, which differ in opc and in the place of their register.
pub fn special(w: Option<u32>, opc: u32, place: u32, n: u32, s: u32) -> Option<u32>
    ensures { result ≡ grown (grown (grown (grown w 32 4194304 9) 8 16 opc) 32 place n) 16 1 s }
{
    let w = put(w, 32, 4194304, 9);
    let w = put(w, 8, 16, opc);
    let w = put(w, 32, place, n);
    put(w, 16, 1, s)
}

// LDT.
pub fn load(w: Option<u32>, rd: u32, ra: u32, width: u32, kind: u32, imm: u32) -> Option<u32>
    ensures { result ≡ in_format w (at first_formats 3) (rd ∷ ra ∷ width ∷ kind ∷ imm ∷ []) }
{
    let w = put(w, 32, 4194304, 10);
    let w = put(w, 32, 131072, rd);
    let w = put(w, 32, 4096, ra);
    let w = put(w, 8, 512, width);
    let w = put(w, 4, 128, kind);
    put(w, 128, 1, imm)
}

// STT.
pub fn store(w: Option<u32>, width: u32, kind: u32, ra: u32, rs: u32, imm: u32) -> Option<u32>
    ensures { result ≡ in_format w (at first_formats 4) (width ∷ kind ∷ ra ∷ rs ∷ imm ∷ []) }
{
    let w = put(w, 32, 4194304, 11);
    let w = put(w, 8, 524288, width);
    let w = put(w, 4, 131072, kind);
    let w = put(w, 32, 4096, ra);
    let w = put(w, 32, 128, rs);
    put(w, 128, 1, imm)
}

// STCi and STCr, which differ in bits 19 to 18 and in their operand.
pub fn stack(w: Option<u32>, form: u32, op: u32, limit: u32, place: u32, n: u32) -> Option<u32>
    ensures { result ≡ grown (grown (grown (grown w 32 4194304 12) 4 262144 form) 4 1048576 op) limit place n }
{
    let w = put(w, 32, 4194304, 12);
    let w = put(w, 4, 262144, form);
    let w = put(w, 4, 1048576, op);
    put(w, limit, place, n)
}

// CFLi.
pub fn flow_immediate(w: Option<u32>, op: u32, imm: u32) -> Option<u32>
    ensures { result ≡ in_format w (at first_formats 7) (op ∷ imm ∷ []) }
{
    let w = put(w, 4, 33554432, 2);
    let w = put(w, 8, 4194304, op);
    put(w, 4194304, 1, imm)
}

// CFLri.
pub fn flow_implicit(w: Option<u32>, d: u32, op: u32) -> Option<u32>
    ensures { result ≡ in_format w (at first_formats 8) (d ∷ op ∷ []) }
{
    let w = put(w, 16, 8388608, 12);
    let w = put(w, 4, 4, 0);
    let w = put(w, 2, 4194304, d);
    put(w, 4, 1, op)
}

// CFLrs.
pub fn flow_single(w: Option<u32>, d: u32, rs: u32, op: u32) -> Option<u32>
    ensures { result ≡ in_format w (at first_formats 9) (d ∷ rs ∷ op ∷ []) }
{
    let w = put(w, 16, 8388608, 12);
    let w = put(w, 4, 4, 1);
    let w = put(w, 2, 4194304, d);
    let w = put(w, 32, 4096, rs);
    put(w, 4, 1, op)
}

// CFLrt.
pub fn flow_two(w: Option<u32>, d: u32, base: u32, offset: u32, op: u32) -> Option<u32>
    ensures { result ≡ in_format w (at first_formats 10) (d ∷ base ∷ offset ∷ op ∷ []) }
{
    let w = put(w, 16, 8388608, 12);
    let w = put(w, 4, 4, 2);
    let w = put(w, 2, 4194304, d);
    let w = put(w, 32, 4096, base);
    let w = put(w, 32, 128, offset);
    put(w, 4, 1, op)
}
