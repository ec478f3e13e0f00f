// The instructions, as the words of sections 2.5 and 2.6 of the handbook tell them apart. An immediate is kept as its
// field has it, in full width; what it means is left to whoever executes it. Only br's field is a signed number. A function, a special register,
// a memory and a width have the number of their code.
#![tactic(auto, unfolding(crate::specs::Format::row))]

pub mod tables;

// A predicate as an operand: four bits, of which the upper one negates the predicate that the others name.
#[derive(Clone, Copy)]
pub struct PredicateOperand {
    pub negated: bool,
    pub predicate: u32,
}

// Table 2.1.
#[derive(Clone, Copy)]
pub enum AluFunction {
    Add = 0,
    Sub = 1,
    Xor = 2,
    Sl = 3,
    Sr = 4,
    Sra = 5,
    Or = 6,
    And = 7,
    Nor = 11,
    Shadd = 12,
    Shadd2 = 13,
}

// Table 2.2.
#[derive(Clone, Copy)]
pub enum MultiplyFunction {
    Mul = 0,
    Mulu = 1,
}

// Table 2.3.
#[derive(Clone, Copy)]
pub enum CompareFunction {
    Cmpeq = 0,
    Cmpneq = 1,
    Cmplt = 2,
    Cmple = 3,
    Cmpult = 4,
    Cmpule = 5,
    Btest = 6,
}

// Table 2.4.
#[derive(Clone, Copy)]
pub enum PredicateFunction {
    Por = 6,
    Pand = 7,
    Pxor = 10,
}

// The second operand of ALU and compare functions: the handbook's Op2.
#[derive(Clone, Copy)]
pub enum Op2 {
    Register(u32),
    Immediate(u32),
    Long(u32),
}

// The operations that either slot of a bundle can hold.
#[derive(Clone, Copy)]
pub enum AluOperation {
    Arithmetic {
        function: AluFunction,
        rd: u32,
        rs1: u32,
        op2: Op2,
    },
    Compare {
        function: CompareFunction,
        pd: u32,
        rs1: u32,
        op2: Op2,
    },
    Predicate {
        function: PredicateFunction,
        pd: u32,
        ps1: PredicateOperand,
        ps2: PredicateOperand,
    },
    BitCopy {
        rd: u32,
        rs1: u32,
        bit: u32,
        ps: PredicateOperand,
    },
}

// The special registers of figure 2.2 that a program can name.
#[derive(Clone, Copy)]
pub enum Special {
    S0 = 0,
    Sl = 2,
    Sh = 3,
    Ss = 5,
    St = 6,
    Srb = 7,
    Sro = 8,
    Sxb = 9,
    Sxo = 10,
}

// Which memory an access goes to.
#[derive(Clone, Copy)]
pub enum AccessKind {
    Stack = 0,
    Local = 1,
    Cached = 2,
    Main = 3,
}

// Table 2.5: the width of a load and how it is extended to a word.
#[derive(Clone, Copy)]
pub enum LoadWidth {
    Word = 0,
    Half = 1,
    Byte = 2,
    HalfUnsigned = 3,
    ByteUnsigned = 4,
}

// Table 2.6: the width of a store.
#[derive(Clone, Copy)]
pub enum StoreWidth {
    Word = 0,
    Half = 1,
    Byte = 2,
}

// How much sens and sspill move: words by an immediate, bytes by a register.
#[derive(Clone, Copy)]
pub enum StackAmount {
    Words(u32),
    Register(u32),
}

// Tables 2.7 and 2.8.
#[derive(Clone, Copy)]
pub enum StackOperation {
    Sres(u32),
    Sens(StackAmount),
    Sfree(u32),
    Sspill(StackAmount),
}

// Where a transfer goes, by its kind: tables 2.10 to 2.13. Immediates are words.
#[derive(Clone, Copy)]
pub enum Target {
    Call(u32),
    CallRegister(u32),
    Br(i32),
    BrRegister(u32),
    Brcf(u32),
    BrcfRegister(u32, u32),
    Ret,
}

// The operations of slot one.
#[derive(Clone, Copy)]
pub enum Operation {
    Alu(AluOperation),
    Multiply {
        function: MultiplyFunction,
        rs1: u32,
        rs2: u32,
    },
    Mts {
        special: Special,
        rs1: u32,
    },
    Mfs {
        rd: u32,
        special: Special,
    },
    Load {
        kind: AccessKind,
        width: LoadWidth,
        rd: u32,
        ra: u32,
        offset: u32,
    },
    Store {
        kind: AccessKind,
        width: StoreWidth,
        ra: u32,
        rs: u32,
        offset: u32,
    },
    StackControl(StackOperation),
    Transfer {
        delayed: bool,
        target: Target,
    },
    Trap(u32),
    Xret {
        delayed: bool,
    },
}

// A guard and an operation: what slot one holds.
#[derive(Clone, Copy)]
pub struct Instruction {
    pub guard: PredicateOperand,
    pub operation: Operation,
}

// The same for slot two.
#[derive(Clone, Copy)]
pub struct AluInstruction {
    pub guard: PredicateOperand,
    pub operation: AluOperation,
}

// What a first and a second word encode together. No Option of the others: what writes, judges and does a bundle answers for one that cannot be
// decoded too, and theorems speak of that answer (`refused_iff` and the examples of encoder_laws).
#[derive(Clone, Copy)]
pub enum Bundle {
    Undecodable,
    One(Instruction),
    Two(Instruction, AluInstruction),
    Long(Instruction),
}
