// Why a line is a mistake, in words.
ghost use Rattle.std.specs.Prelude.{◌≡◌};
ghost use Rattle.text.specs.Page.{Puts};
ghost use Rattle.text.specs.Table.{table, row_text};
ghost use Rattle.case_report.specs.Mistake.{reason_text};
ghost use Rattle.case_report.specs.Reasons.{number_of, reasons, texts};

use case_file::Reason;
use text::page::Page;

fn words(r: Reason) -> &'static str
    ensures { result.now ≡ reason_text r }
{
    match r {
        Reason::UnknownWord => "the first word is unknown",
        Reason::FieldMissing => "a field is missing",
        Reason::FieldTooMany => "a field too many",
        Reason::NotANumber => "a decimal number of 32 bits is expected",
        Reason::NotAWord => "a word of eight hexadecimal digits is expected",
        Reason::NotAName => "a name has 1 to 60 letters, digits, '-', '_' or '.'",
        Reason::NotABit => "a predicate is 0 or 1",
        Reason::NoSuchRegister => "registers are 0 to 31",
        Reason::NoSuchPredicate => "predicates are 0 to 7",
        Reason::NoSuchSpecial => "specials are sl, sh, ss, st, srb, sro, sxb and sxo",
        Reason::NoSuchTransfer => "transfers are br, call, block and xret",
        Reason::NoSuchItem => "items are r0 to r31, p0 to p7, sl, sh, main, local and stack",
        Reason::LineTooLong => "the line is longer than 4000 bytes",
        Reason::BeforeFirstCase => "no case has started",
        Reason::AfterOperation => "a description line after the case's first operation",
        Reason::Repeated => "this line may stand only once in a case",
        Reason::TooMuchCode => "code is at most 65536 bytes long",
        Reason::TooMuchMemory => "a memory is at most 65536 bytes long",
        Reason::PlaceOutside =>
            "a place is a multiple of 4 inside the memory, with its whole word, or a cache place below W",
        Reason::UnseenByte =>
            "fields stand apart by spaces: tabs and carriage returns are not allowed",
        Reason::NoSuchInstruction => "no instruction has this name",
        Reason::NotARegister => "a register is expected, as r3",
        Reason::NotAPredicate =>
            "a predicate is expected, as p3, or !p3 where its negation may stand",
        Reason::NotASpecial =>
            "a special register is expected: s0, sl, sh, ss, st, srb, sro, sxb or sxo",
        Reason::NotAnOffset => "a decimal number from -2147483648 to 2147483647 is expected",
        Reason::TooManyProducts => "a case has at most two product lines",
        Reason::TooManyHeld => "a case has at most 16 held blocks",
        Reason::TooMuchRecord => "a record and the room for one are at most 8192 bytes long",
        Reason::NoSuchVector => "vectors of handlers are 0 to 31",
        Reason::TooManyInterrupts => "a case has at most 4096 interrupts",
        Reason::TooMuchReplay => "a list is at most 65536 bytes long, and a table 256",
    }
}

// The words of a reason, which are its row in the table of reasons.
#[tactic(auto, using(crate::specs::ReasonLaws::reason_row))]
pub(crate) fn put_reason(page: &mut Page, r: Reason)
    ensures words { Puts page.old page.new (reason_text r) }
    ensures row { Puts page.old page.new (row_text (table (texts reasons)) (number_of r)) }
{
    page.put(words(r).as_bytes());
}
