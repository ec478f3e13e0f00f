// The lines on a record that was written, and on the bytes behind it.
#![tactic(auto, using(text::specs::PageLaws::texts), unfolding(crate::specs::RecordLines::lead, crate::specs::RecordLines::record_word, crate::specs::RecordLines::record_text, crate::specs::RecordLines::rest_text))]

ghost use Rattle.std.specs.Prelude.{◌≡◌, ◌+◌, ◌*◌, ◌≤◌, ◌<◌, length};
ghost use Rattle.text.specs.Page.{Puts};
ghost use Rattle.case_report.specs.RecordLines.{lead, record_word, record_text, counted_with, filled_to, rest_text};

use crate::changes::put_bytes;
use crate::form::say;
use text::page::Page;

// What the room for a record holds before one is written.
pub const FILL: u8 = 0xA5;

// What stands in front of word k.
fn put_lead(page: &mut Page, k: usize)
    ensures { Puts page.old page.new (lead k) }
{
    if k == 0 {
        page.put(b"record ");
    } else if k % 16 == 0 {
        page.put(b"\nrecord ");
    } else {
        page.put(b" ");
    }
}

fn put_record_word(page: &mut Page, bytes: &[u8], k: usize)
    requires { 4 * k + 4 ≤ length bytes.now }
    ensures { Puts page.old page.new (record_word bytes.now k) }
{
    put_lead(page, k);
    let start = 4 * k;
    let end = start + 4;
    put_bytes(page, &bytes[start..end]);
}

// The words of a record, 16 to a line. Of no words there is no line.
pub fn put_record(page: &mut Page, bytes: &[u8])
    ensures { Puts page.old page.new (record_text bytes.now) }
{
    let words = bytes.len() / 4;
    if words == 0 {
        return;
    }
    for k in 0..words {
        put_record_word(page, bytes, k);
    }
    page.put_byte(b'\n');
}

// How many hold FILL with one byte more.
fn counted_with(n: usize, b: u8) -> usize
    requires { n < 18446744073709551615 }
    ensures { (result ≡ counted_with n b) × (result ≤ n + 1) }
{
    if b == FILL {
        return n + 1;
    }
    n
}

fn filled(bytes: &[u8]) -> usize
    ensures { result ≡ filled_to (length bytes.now) bytes.now }
{
    let mut n = 0;
    for b in bytes {
        n = counted_with(n, *b);
    }
    n
}

// How many of the bytes behind a record hold what they held before.
pub fn put_rest(page: &mut Page, bytes: &[u8])
    ensures { Puts page.old page.new (rest_text bytes.now) }
{
    say(page, b"rest %\n", &[filled(bytes) as u64]);
}
