// Operands, by the letters of their kinds: r a register, p a predicate, q a predicate or its negation, s a special register, n a number,
// i one with a sign, w a word, and a space where there is none.
ghost use Rattle.std.specs.Prelude.{◌≡◌};
ghost use Rattle.assembly.specs.Operands.{plain as plain_of, or_why, opposite as oppositeOf, up_to, signed_number, special_number};
ghost use Rattle.assembly.specs.Operands.{predicate_read, operand_of, operand_at};

use crate::Operand;
use case_file::Reason;
use case_words::numbered;
use text::fields::next_field;
use text::numbers::{decimal, word};
use text::table::row_of;

// The special registers by the numbers of their fields.
pub(crate) const SPECIALS: [u8; 33] = *b"s0\n\nsl\nsh\n\nss\nst\nsrb\nsro\nsxb\nsxo\n";

// An operand without `!`.
pub fn plain(number: u32) -> Operand
    ensures { result ≡ plain_of number }
{
    Operand {
        negated: false,
        number,
    }
}

// An operand without `!`, and the position after its field.
fn plain_or(why: Reason, n: Option<u32>, next: usize) -> Result<(Operand, usize), Reason>
    ensures { result ≡ or_why why plain_of n next }
{
    let number = n.ok_or(why)?;
    Ok((plain(number), next))
}

fn special_number(s: &[u8]) -> Option<u32>
    ensures { result ≡ special_number s.now }
{
    let row = row_of(&SPECIALS, s);
    if row < 11 {
        return Some(row as u32);
    }
    None
}

fn up_to(greatest: u32, n: Option<u32>) -> Option<u32>
    ensures { result ≡ up_to greatest n }
{
    n.filter(|v| *v <= greatest)
}

// The two's complement of a number.
fn opposite(n: Option<u32>) -> Option<u32>
    ensures { result ≡ oppositeOf n }
{
    let v = n?;
    Some(v.wrapping_neg())
}

#[tactic(auto, unfolding(crate::specs::Operands::signed_number))]
fn signed_number(s: &[u8]) -> Option<u32>
    ensures { result ≡ signed_number s.now }
{
    let (first, digits) = s.split_first()?;
    if *first == b'-' {
        return opposite(up_to(2147483648, decimal(digits)));
    }
    up_to(2147483647, decimal(s))
}

// A predicate, with `!` in front where its negation is meant.
#[tactic(auto, unfolding(crate::specs::Operands::predicate_read))]
pub fn predicate_read(s: &[u8], next: usize) -> Result<(Operand, usize), Reason>
    ensures { result ≡ predicate_read s.now next }
{
    let (first, name) = s.split_first().ok_or(Reason::NotAPredicate)?;
    if *first != b'!' {
        return plain_or(Reason::NotAPredicate, numbered(s, b'p', 4294967295), next);
    }
    let number = numbered(name, b'p', 4294967295).ok_or(Reason::NotAPredicate)?;
    let operand = Operand {
        negated: true,
        number,
    };
    Ok((operand, next))
}

// A field as an operand of a kind.
#[tactic(auto, unfolding(crate::specs::Operands::operand_of))]
fn operand_of(kind: u8, s: &[u8], next: usize) -> Result<(Operand, usize), Reason>
    ensures { result ≡ operand_of kind s.now next }
{
    match kind {
        b'r' => plain_or(Reason::NotARegister, numbered(s, b'r', 4294967295), next),
        b'p' => plain_or(Reason::NotAPredicate, numbered(s, b'p', 4294967295), next),
        b'q' => predicate_read(s, next),
        b's' => plain_or(Reason::NotASpecial, special_number(s), next),
        b'n' => plain_or(Reason::NotANumber, decimal(s), next),
        b'i' => plain_or(Reason::NotAnOffset, signed_number(s), next),
        _ => plain_or(Reason::NotAWord, word(s), next),
    }
}

// The next field of a line as an operand. Where there is none of a kind no field is taken.
#[tactic(auto, unfolding(crate::specs::Operands::operand_at))]
pub fn operand_at(line: &[u8], at: usize, kind: u8) -> Result<(Operand, usize), Reason>
    ensures { result ≡ operand_at line.now at kind }
{
    if kind == b' ' {
        return Ok((plain(0), at));
    }
    let f = next_field(line, at);
    let start = f.start;
    let end = f.end;
    if start == end {
        return Err(Reason::FieldMissing);
    }
    operand_of(kind, &line[start..end], end)
}
