// Texts with numbers filled in. A form is a text in which '%' stands for a number in decimal, '#' for one as a word, and '$' for
// one as a letter. Numbers are taken one after the other, and are 0 where there are no more.
#![tactic(auto, using(text::specs::PageLaws::texts), unfolding(crate::specs::Form::shown))]

ghost use Rattle.std.specs.Prelude.{◌≡◌, cond, ◌+◌, ◌≤◌, ◌<◌, get_or, drop};
ghost use Rattle.text.specs.Page.{Puts};
ghost use Rattle.case_report.specs.Form.{is_hole, shown, filled};

use case_kept::kept::{ALL, Kept};
use text::page::Page;

// A byte of a form, with the number that it may stand for.
fn put_shown(page: &mut Page, b: u8, n: u64)
    ensures { Puts page.old page.new (shown b n) }
{
    match b {
        b'%' => page.put_decimal(n),
        b'#' => page.put_word((n % 4294967296) as u32),
        b'$' => page.put_byte((n % 256) as u8),
        _ => page.put_byte(b),
    }
}

// Which number is next after a byte of a form.
fn next_number(b: u8, k: usize) -> usize
    requires { k < 18446744073709551615 }
    ensures { (result ≡ cond (is_hole b) (k + 1) k) × (result ≤ k + 1) }
{
    if ((b == b'%') | (b == b'#')) | (b == b'$') {
        return k + 1;
    }
    k
}

fn nth(numbers: &[u64], k: usize) -> u64
    ensures { result ≡ get_or numbers.now k 0 }
{
    numbers.get(k).copied().unwrap_or(0)
}

// A form with its numbers.
pub fn say(page: &mut Page, form: &[u8], numbers: &[u64])
    ensures { Puts page.old page.new (filled form.now numbers.now) }
{
    let mut k = 0;
    for b in form {
        put_shown(page, *b, nth(numbers, k));
        k = next_number(*b, k);
    }
}

// A form with kept numbers, from an index on.
#[tactic(auto, using(crate::specs::FormLaws::from_on))]
pub fn say_kept(page: &mut Page, form: &[u8], kept: &Kept, first: usize)
    ensures { Puts page.old page.new (filled form.now (drop first kept.now)) }
{
    let from = first.min(ALL);
    let numbers = &kept[..];
    say(page, form, &numbers[from..]);
}
