// What a line of a case file says.
ghost use Rattle.std.specs.Prelude.{◌≡◌, true};
ghost use Rattle.case_file.specs.Line.{end, list, reg, of_word, line_after, line_of, is_named};

use crate::arguments::{ended, number_field, word_field};
use crate::number_lines::{number_line, three_numbers, two_numbers};
use crate::record_lines::{resume_line, room_line};
use crate::{Line, Reason, ReplayLine, Resumption, ThreeNumbers, TwoNumbers};
use case_words::{Keyword, NumberAndWord, TransferKind, first_word, special_name, transfer_kind};
use text::fields::{is_name, next_field};

// A line with nothing after what it said.
pub(crate) fn whole(line: &[u8], at: usize, said: Result<Line, Reason>) -> Result<Line, Reason>
    ensures { result ≡ end line.now at said }
{
    if ended(line, at) {
        return said;
    }
    Err(Reason::FieldTooMany)
}

#[tactic(auto, unfolding(crate::specs::Line::line_after))]
fn case_line(line: &[u8], at: usize) -> Result<Line, Reason>
    ensures { result ≡ line_after line.now at Keyword.Case }
{
    let f = next_field(line, at);
    let start = f.start;
    let end = f.end;
    if start == end {
        return Err(Reason::FieldMissing);
    }
    if is_name(&line[start..end]) {
        return whole(line, end, Ok(Line::Case { name: start }));
    }
    Err(Reason::NotAName)
}

// A line whose list, or text, has one field at least.
fn list_line(line: &[u8], at: usize, said: Line) -> Result<Line, Reason>
    ensures { result ≡ list line.now at said }
{
    if ended(line, at) {
        return Err(Reason::FieldMissing);
    }
    Ok(said)
}

#[tactic(auto, unfolding(crate::specs::Line::reg))]
fn reg(number: u32, word: u32) -> Result<Line, Reason>
    ensures { result ≡ reg number word }
{
    if number <= 31 {
        return Ok(Line::Reg { number, word });
    }
    Err(Reason::NoSuchRegister)
}

fn of_word(k: NumberAndWord, n: u32, word: u32) -> Result<Line, Reason>
    ensures { result ≡ of_word k n word }
{
    match k {
        NumberAndWord::Reg => reg(n, word),
        NumberAndWord::Load => Ok(Line::Load { number: n, word }),
        NumberAndWord::MainWord => Ok(Line::MainWord { address: n, word }),
        NumberAndWord::LocalWord => Ok(Line::LocalWord { address: n, word }),
        NumberAndWord::CacheWord => Ok(Line::CacheWord { place: n, word }),
    }
}

#[tactic(auto, unfolding(crate::specs::Line::line_after))]
fn word_line(line: &[u8], at: usize, k: NumberAndWord) -> Result<Line, Reason>
    ensures { result ≡ line_after line.now at (Keyword.NumberAndWord k) }
{
    let (n, at) = number_field(line, at)?;
    let (w, at) = word_field(line, at)?;
    whole(line, at, of_word(k, n, w))
}

#[tactic(auto, unfolding(crate::specs::Line::line_after))]
fn special_line(line: &[u8], at: usize) -> Result<Line, Reason>
    ensures { result ≡ line_after line.now at Keyword.Special }
{
    let f = next_field(line, at);
    let start = f.start;
    let end = f.end;
    if start == end {
        return Err(Reason::FieldMissing);
    }
    let name = special_name(&line[start..end]).ok_or(Reason::NoSuchSpecial)?;
    let (word, at) = word_field(line, end)?;
    whole(
        line,
        at,
        Ok(Line::Special {
            name: Some(name),
            word,
        }),
    )
}

#[tactic(auto, unfolding(crate::specs::Line::line_after, crate::specs::Line::transfer))]
fn transfer_line(line: &[u8], at: usize) -> Result<Line, Reason>
    ensures { result ≡ line_after line.now at Keyword.Transfer }
{
    let f = next_field(line, at);
    let start = f.start;
    let end = f.end;
    if start == end {
        return Err(Reason::FieldMissing);
    }
    let kind = transfer_kind(&line[start..end]).ok_or(Reason::NoSuchTransfer)?;
    match kind {
        TransferKind::Br => two_numbers(line, end, TwoNumbers::Br),
        TransferKind::Call => two_numbers(line, end, TwoNumbers::Call),
        TransferKind::Block => three_numbers(line, end, ThreeNumbers::Block),
        TransferKind::Xret => three_numbers(line, end, ThreeNumbers::Xret),
    }
}

// A product under way: WAIT, LOW and HIGH.
#[tactic(auto, unfolding(crate::specs::Line::line_after))]
fn product_line(line: &[u8], at: usize) -> Result<Line, Reason>
    ensures { result ≡ line_after line.now at Keyword.Product }
{
    let (wait, at) = number_field(line, at)?;
    let (low, at) = word_field(line, at)?;
    let (high, at) = word_field(line, at)?;
    whole(line, at, Ok(Line::Product { wait, low, high }))
}

#[tactic(auto, unfolding(crate::specs::Line::line_after))]
fn after_keyword(line: &[u8], at: usize, k: Keyword) -> Result<Line, Reason>
    ensures { result ≡ line_after line.now at k }
{
    match k {
        Keyword::Case => case_line(line, at),
        Keyword::Code => list_line(line, at, Line::Code { list: at }),
        Keyword::OneNumber(k) => number_line(line, at, k),
        Keyword::Stack => three_numbers(line, at, ThreeNumbers::Stack),
        Keyword::Private => list_line(line, at, Line::Private { list: at }),
        Keyword::NumberAndWord(k) => word_line(line, at, k),
        Keyword::Pred => two_numbers(line, at, TwoNumbers::Pred),
        Keyword::Special => special_line(line, at),
        Keyword::Transfer => transfer_line(line, at),
        Keyword::Step => whole(line, at, Ok(Line::Step)),
        Keyword::Check => whole(line, at, Ok(Line::Check)),
        Keyword::Write => list_line(line, at, Line::Write { text: at }),
        Keyword::Listing => whole(line, at, Ok(Line::Listing)),
        Keyword::Product => product_line(line, at),
        Keyword::Method => two_numbers(line, at, TwoNumbers::Method),
        Keyword::Held => list_line(line, at, Line::Held { list: at }),
        Keyword::Record => list_line(line, at, Line::Record { list: at }),
        Keyword::Save => whole(line, at, Ok(Line::Save)),
        Keyword::Resume => resume_line(line, at),
        Keyword::Restep => room_line(line, at, Resumption::Step),
        Keyword::Interrupt => two_numbers(line, at, TwoNumbers::Interrupt),
        Keyword::Handler => two_numbers(line, at, TwoNumbers::Handler),
        Keyword::Active => whole(line, at, Ok(Line::Replay(ReplayLine::Active))),
    }
}

// A line without its line end. A special line that is read has the name of a special register.
#[tactic(auto, unfolding(crate::specs::Line::line_of))]
pub fn read_line(line: &[u8]) -> Result<Line, Reason>
    ensures line { result ≡ line_of line.now }
    ensures named { is_named result ≡ true }
{
    let f = next_field(line, 0);
    let start = f.start;
    let end = f.end;
    if start == end {
        return Ok(Line::Empty);
    }
    let k = first_word(&line[start..end]).ok_or(Reason::UnknownWord)?;
    after_keyword(line, end, k)
}

#[cfg(test)]
mod tests {
    use super::*;
    use case_words::SpecialName;

    #[test]
    fn reads_the_name_of_each_special_register(rt: HostRuntime) -> std::io::Result<()> {
        for (text, name) in [
            ("special sl 0000000a", SpecialName::Sl),
            ("special sh 0000000a", SpecialName::Sh),
            ("special ss 0000000a", SpecialName::Ss),
            ("special st 0000000a", SpecialName::St),
            ("special srb 0000000a", SpecialName::Srb),
            ("special sro 0000000a", SpecialName::Sro),
            ("special sxb 0000000a", SpecialName::Sxb),
            ("special sxo 0000000a", SpecialName::Sxo),
        ] {
            let want = Ok(Line::Special {
                name: Some(name),
                word: 10,
            });
            assert!(rt; read_line(text.as_bytes()) == want, "{text}");
        }
        assert!(rt; read_line(b"special s0 0000000a") == Err(Reason::NoSuchSpecial));
        Ok(())
    }
}
