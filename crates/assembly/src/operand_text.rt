// Operands put on a page, by the letters of their kinds.
#![tactic(auto, using(text::specs::PageLaws::texts), unfolding(crate::specs::Operands::signed_text, crate::specs::Operands::value_text, crate::specs::Operands::specials, crate::specs::Operands::operand_text, text::specs::Table::table))]

ghost use Rattle.std.specs.Prelude.{◌∷◌};
ghost use Rattle.text.specs.Number.{decimal_text};
ghost use Rattle.text.specs.Page.{Puts};
ghost use Rattle.assembly.specs.Operands.{predicate_text, signed_text, value_text, operand_text};

use crate::Operand;
use crate::operands::SPECIALS;
use text::page::Page;

// A letter and a number.
fn put_lettered(page: &mut Page, letter: u8, n: u32)
    ensures { Puts page.old page.new (letter ∷ decimal_text n) }
{
    page.put_byte(letter);
    page.put_decimal(n as u64);
}

// A predicate, with `!` in front where its negation is meant.
pub fn put_predicate(page: &mut Page, negated: bool, n: u32)
    ensures { Puts page.old page.new (predicate_text negated n) }
{
    if negated {
        page.put_byte(b'!');
    }
    put_lettered(page, b'p', n);
}

// A number that is the two's complement of one with a sign.
fn put_signed(page: &mut Page, n: u32)
    ensures { Puts page.old page.new (signed_text n) }
{
    if n < 2147483648 {
        page.put_decimal(n as u64);
    } else {
        page.put_byte(b'-');
        page.put_decimal(4294967296 - (n as u64));
    }
}

fn put_value(page: &mut Page, kind: u8, o: Operand)
    ensures { Puts page.old page.new (value_text kind o) }
{
    let n = o.number;
    match kind {
        b'r' => put_lettered(page, b'r', n),
        b'p' => put_lettered(page, b'p', n),
        b'q' => put_predicate(page, o.negated, n),
        b's' => page.put_row(&SPECIALS, n as usize),
        b'n' => page.put_decimal(n as u64),
        b'i' => put_signed(page, n),
        _ => page.put_word(n),
    }
}

// An operand with the space before it, or nothing where there is none.
pub fn put_operand(page: &mut Page, kind: u8, o: Operand)
    ensures { Puts page.old page.new (operand_text kind o) }
{
    if kind != b' ' {
        page.put_byte(b' ');
        put_value(page, kind, o);
    }
}
