// The lines of one, two and three numbers.
ghost use Rattle.std.specs.Prelude.{◌≡◌};
ghost use Rattle.case_words.specs.declared.Keyword.TheVariants as Keyword;
ghost use Rattle.case_file.specs.Line.{two_numbers, three_numbers, pred, within, of_number, of_two, of_three, line_after};

use crate::arguments::number_field;
use crate::lines::whole;
use crate::record_lines::record_bytes;
use crate::{Line, Reason, ReplayLine, ThreeNumbers, TwoNumbers};
use case_words::OneNumber;

// What a line says whose number has a greatest value.
fn within(most: u32, n: u32, otherwise: Reason, said: Line) -> Result<Line, Reason>
    ensures { result ≡ within most n otherwise said }
{
    if n <= most {
        return Ok(said);
    }
    Err(otherwise)
}

fn of_number(k: OneNumber, n: u32) -> Result<Line, Reason>
    ensures { result ≡ of_number k n }
{
    match k {
        OneNumber::Main => Ok(Line::Main(n)),
        OneNumber::Local => Ok(Line::Local(n)),
        OneNumber::Entry => Ok(Line::Entry(n)),
        OneNumber::Fetch => Ok(Line::Fetch(n)),
        OneNumber::Base => Ok(Line::Base(n)),
        OneNumber::Run => Ok(Line::Run(n)),
        OneNumber::RecordBytes => record_bytes(n),
        OneNumber::ListBytes => within(
            65536,
            n,
            Reason::TooMuchReplay,
            Line::Replay(ReplayLine::ListBytes(n)),
        ),
        OneNumber::TableBytes => within(
            256,
            n,
            Reason::TooMuchReplay,
            Line::Replay(ReplayLine::TableBytes(n)),
        ),
        OneNumber::Place => Ok(Line::Replay(ReplayLine::Place(n))),
        OneNumber::Replayed => Ok(Line::Replay(ReplayLine::Done(n))),
    }
}

#[tactic(auto, unfolding(crate::specs::Line::line_after))]
pub(crate) fn number_line(line: &[u8], at: usize, k: OneNumber) -> Result<Line, Reason>
    ensures { result ≡ line_after line.now at (Keyword.OneNumber k) }
{
    let (n, at) = number_field(line, at)?;
    whole(line, at, of_number(k, n))
}

#[tactic(auto, unfolding(crate::specs::Line::pred))]
fn pred(number: u32, bit: u32) -> Result<Line, Reason>
    ensures { result ≡ pred number bit }
{
    if 7 < number {
        return Err(Reason::NoSuchPredicate);
    }
    if 1 < bit {
        return Err(Reason::NotABit);
    }
    Ok(Line::Pred {
        number,
        value: bit == 1,
    })
}

fn of_two(k: TwoNumbers, a: u32, b: u32) -> Result<Line, Reason>
    ensures { result ≡ of_two k a b }
{
    match k {
        TwoNumbers::Pred => pred(a, b),
        TwoNumbers::Br => Ok(Line::Br { target: a, wait: b }),
        TwoNumbers::Call => Ok(Line::Call { target: a, wait: b }),
        TwoNumbers::Method => Ok(Line::Method {
            blocks: a,
            bytes: b,
        }),
        TwoNumbers::Interrupt => Ok(Line::Replay(ReplayLine::Interrupt {
            number: a,
            vector: b,
        })),
        TwoNumbers::Handler => within(
            31,
            a,
            Reason::NoSuchVector,
            Line::Replay(ReplayLine::Handler {
                vector: a,
                address: b,
            }),
        ),
    }
}

pub(crate) fn two_numbers(line: &[u8], at: usize, k: TwoNumbers) -> Result<Line, Reason>
    ensures { result ≡ two_numbers line.now at (of_two k) }
{
    let (a, at) = number_field(line, at)?;
    let (b, at) = number_field(line, at)?;
    whole(line, at, of_two(k, a, b))
}

fn of_three(k: ThreeNumbers, a: u32, b: u32, c: u32) -> Line
    ensures { result ≡ of_three k a b c }
{
    match k {
        ThreeNumbers::Stack => Line::Stack {
            words: a,
            lo: b,
            hi: c,
        },
        ThreeNumbers::Block => Line::Block {
            target: a,
            base: b,
            wait: c,
        },
        ThreeNumbers::Xret => Line::Xret {
            target: a,
            base: b,
            wait: c,
        },
    }
}

pub(crate) fn three_numbers(line: &[u8], at: usize, k: ThreeNumbers) -> Result<Line, Reason>
    ensures { result ≡ three_numbers line.now at (of_three k) }
{
    let (a, at) = number_field(line, at)?;
    let (b, at) = number_field(line, at)?;
    let (c, at) = number_field(line, at)?;
    whole(line, at, Ok(of_three(k, a, b, c)))
}
