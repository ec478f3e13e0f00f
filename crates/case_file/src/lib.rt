// Case files: what a line says. Nothing here does what a line asks.
#![tactic(auto)]

pub mod arguments;
pub mod lines;
mod number_lines;
mod record_lines;

use case_words::SpecialName;

// The special register of a name, where it is one. A special line that was read has one, as `read_line` promises.
pub type Named = Option<SpecialName>;

// A line by its keyword. Case holds the position of the name, Code, Private, Held and Record that of their lists,
// Write that of the text of a bundle. Resume holds how many bytes a record is written into, where the line says it.
#[derive(Clone, Copy, PartialEq, Eq, Debug)]
pub enum Line {
    Empty,
    Case { name: usize },
    Code { list: usize },
    Private { list: usize },
    Main(u32),
    Local(u32),
    Stack { words: u32, lo: u32, hi: u32 },
    Entry(u32),
    Fetch(u32),
    Base(u32),
    Reg { number: u32, word: u32 },
    Pred { number: u32, value: bool },
    Special { name: Named, word: u32 },
    Br { target: u32, wait: u32 },
    Call { target: u32, wait: u32 },
    Block { target: u32, base: u32, wait: u32 },
    Load { number: u32, word: u32 },
    MainWord { address: u32, word: u32 },
    LocalWord { address: u32, word: u32 },
    CacheWord { place: u32, word: u32 },
    Run(u32),
    Step,
    Check,
    Write { text: usize },
    Listing,
    Product { wait: u32, low: u32, high: u32 },
    Method { blocks: u32, bytes: u32 },
    Held { list: usize },
    Record { list: usize },
    RecordBytes(u32),
    Save,
    Resume(Resumption, Option<u32>),
    Xret { target: u32, base: u32, wait: u32 },
    Replay(ReplayLine),
}

// What a line says of the replay: a record of the list; an entry of the table; how many bytes of either are handed in; and of the first
// state that a handler is active, the list place, and the bundles done.
#[derive(Clone, Copy, PartialEq, Eq, Debug)]
pub enum ReplayLine {
    Interrupt { number: u32, vector: u32 },
    Handler { vector: u32, address: u32 },
    ListBytes(u32),
    TableBytes(u32),
    Active,
    Place(u32),
    Done(u32),
}

// What goes on from a record: a run with a budget, or one step.
#[derive(Clone, Copy, PartialEq, Eq, Debug)]
pub enum Resumption {
    Run(u32),
    Step,
}

// The lines of two numbers.
#[derive(Clone, Copy, PartialEq, Eq, Debug)]
pub enum TwoNumbers {
    Pred,
    Br,
    Call,
    Method,
    Interrupt,
    Handler,
}

// The lines of three numbers.
#[derive(Clone, Copy, PartialEq, Eq, Debug)]
pub enum ThreeNumbers {
    Stack,
    Block,
    Xret,
}

// Why a line is a mistake.
#[derive(Clone, Copy, PartialEq, Eq, Debug)]
pub enum Reason {
    UnknownWord,
    FieldMissing,
    FieldTooMany,
    NotANumber,
    NotAWord,
    NotAName,
    NotABit,
    NoSuchRegister,
    NoSuchPredicate,
    NoSuchSpecial,
    NoSuchTransfer,
    NoSuchItem,
    LineTooLong,
    BeforeFirstCase,
    AfterOperation,
    Repeated,
    TooMuchCode,
    TooMuchMemory,
    PlaceOutside,
    UnseenByte,
    NoSuchInstruction,
    NotARegister,
    NotAPredicate,
    NotASpecial,
    NotAnOffset,
    TooManyProducts,
    TooManyHeld,
    TooMuchRecord,
    NoSuchVector,
    TooManyInterrupts,
    TooMuchReplay,
}
