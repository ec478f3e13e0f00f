// The listing of code, a line for each bundle, and the words of a bundle as text, put on a page.
#![tactic(auto, using(text::specs::PageLaws::texts), unfolding(crate::specs::Listing::spaced, crate::specs::Listing::refused_text, crate::specs::Listing::written_text, crate::specs::Listing::fixed_text, crate::specs::Listing::words_text, crate::specs::Listing::line_text))]

ghost use Rattle.std.specs.Prelude.{◌≡◌, ◌++◌, ◌+◌, ◌≤◌};
ghost use Rattle.text.specs.Number.{decimal_text};
ghost use Rattle.text.specs.Page.{Puts};
ghost use Rattle.case_words.specs.Names.{bytes};
ghost use Rattle.fetch.specs.Fetch.{following_at, fetched};
ghost use Rattle.listing.specs.Listing.{spaced, refused_text, written_text, told, is_fixed, fixed_text, found_text};
ghost use Rattle.listing.specs.Listing.{has_second, words_text, line_text, list_text};

use big_endian::read_word;
use decoder::bundle_words;
use disassembler::writing::put_bundle;
use encoder::words::write;
use encoder::{CodeWords, Written};
use fetch::{Fetched, fetch};
use text::page::Page;
use word::arithmetic::add;

fn put_spaced(page: &mut Page, w: u32)
    ensures { Puts page.old page.new (spaced w) }
{
    page.put_byte(b' ');
    page.put_word(w);
}

fn put_refused(page: &mut Page, n: u32)
    ensures { Puts page.old page.new (refused_text n) }
{
    page.put(b" refused ");
    page.put_decimal(n as u64);
}

fn put_words(page: &mut Page, two: bool, first: u32, second: u32)
    ensures { Puts page.old page.new (words_text two first second) }
{
    put_spaced(page, first);
    if two {
        put_spaced(page, second);
    }
}

// What a bundle is written as, or a refusal by any number.
pub fn put_written(page: &mut Page, w: Result<CodeWords, u32>)
    ensures { Puts page.old page.new (written_text w) }
{
    match w {
        Ok(CodeWords::One(w)) => put_spaced(page, w),
        Ok(CodeWords::Two(w, v)) => put_words(page, true, w, v),
        Err(n) => put_refused(page, n),
    }
}

// What a bundle is written as, with its refusal told by its number.
pub fn told(w: Written) -> Result<CodeWords, u32>
    ensures { result ≡ told w }
{
    match w {
        Ok(words) => Ok(words),
        Err(refusal) => Err(refusal.number()),
    }
}

// Whether the words of a bundle are those that are written for it.
fn is_fixed(w: Written, first: u32, second: u32) -> bool
    ensures { result ≡ is_fixed w first second }
{
    match w {
        Ok(CodeWords::One(w)) => w == first,
        Ok(CodeWords::Two(w, v)) => (w == first) & (v == second),
        Err(_) => true,
    }
}

// The fixed form, where it is another one.
fn put_fixed(page: &mut Page, first: u32, second: u32, w: Written)
    ensures { Puts page.old page.new (fixed_text first second w) }
{
    if !is_fixed(w, first, second) {
        page.put(b" fixed");
        put_written(page, told(w));
    }
}

// What is found at an address, behind its words. All that holds a bundle is done here: each function that has one as a local is slow to
// prove.
fn put_found(page: &mut Page, first: u32, second: u32, code: &[u8], address: u32)
    ensures { Puts page.old page.new (found_text first second (fetched code.now address)) }
{
    match fetch(code, address) {
        Err(refusal) => put_refused(page, refusal.number()),
        Ok(Fetched { bundle, .. }) => {
            put_fixed(page, first, second, write(bundle));
            page.put_byte(b' ');
            put_bundle(page, bundle);
        }
    }
}

// Whether a bundle has two words, and the code has the second.
fn has_second(code: &[u8], address: u32) -> bool
    ensures { result ≡ has_second code.now address }
{
    (bundle_words(read_word(code, address)) == 2) & ((address as usize) + 8 <= code.len())
}

fn put_at(page: &mut Page, address: u32)
    ensures { Puts page.old page.new (bytes "at " ++ decimal_text address) }
{
    page.put(b"at ");
    page.put_decimal(address as u64);
}

// The line of an address.
fn put_line(page: &mut Page, code: &[u8], address: u32)
    ensures { Puts page.old page.new (line_text code.now address) }
{
    let first = read_word(code, address);
    let second = read_word(code, add(address, 4));
    put_at(page, address);
    put_words(page, has_second(code, address), first, second);
    put_found(page, first, second, code, address);
    page.put_byte(b'\n');
}

// The address after a bundle, whether it can be read or not.
fn following(code: &[u8], address: u32) -> u32
    requires { address ≤ 131072 }
    ensures { (result ≡ following_at code.now address) × (result ≤ address + 8) }
{
    if bundle_words(read_word(code, address)) == 1 {
        return address + 4;
    }
    address + 8
}

// The listing. A proved loop has to end, so it is one over a range. Their number is such that no address passes 32 bits, however long the
// code is.
pub fn put_list(page: &mut Page, code: &[u8])
    ensures { Puts page.old page.new (list_text code.now) }
{
    page.put(b"list\n");
    let mut address = 0u32;
    for _ in 0..16384u32 {
        if code.len() <= (address as usize) {
            return;
        }
        put_line(page, code, address);
        address = following(code, address);
    }
}
