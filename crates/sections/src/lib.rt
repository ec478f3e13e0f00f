// Sections of words in bytes, each after its count of words: how they are found. Nothing is asked of the bytes.
#![tactic(auto)]

ghost use Rattle.std.specs.Prelude.{◌≡◌, ◌≤◌, ◌%◌, length, get_or, drop};
ghost use Rattle.sections.specs.Words.{words_in};
ghost use Rattle.sections.specs.Sections.{is_cut, behind, first_end, words_of_first, section_at};

use big_endian::read_word;

// The word at a place, and 0 past the last whole word.
pub fn word_at(bytes: &[u8], i: usize) -> u32
    ensures { result ≡ get_or (words_in bytes.now) i 0 }
{
    if i < bytes.len() / 4 {
        return read_word(&bytes[4 * i..], 0);
    }
    0
}

// Where the section at the beginning ends, in bytes, if a whole one stands there.
fn first_end(bytes: &[u8]) -> Option<usize>
    ensures { result ≡ first_end (words_in bytes.now) }
{
    if bytes.len() < 4 {
        return None;
    }
    let n = word_at(bytes, 0) as usize;
    if bytes.len() / 4 - 1 < n {
        return None;
    }
    Some(4 * (1 + n))
}

// The words of the section at the beginning; where it is not whole, those that there are. What is given is whole words, so that its
// bytes are fixed by them.
fn first_words(bytes: &[u8]) -> &[u8]
    ensures { (words_in result.now ≡ words_of_first (words_in bytes.now)) × (length result.now % 4 ≡ 0) }
{
    if bytes.len() < 4 {
        return &bytes[0..0];
    }
    let Some(end) = first_end(bytes) else {
        return &bytes[4..4 * (bytes.len() / 4)];
    };
    &bytes[4..end]
}

// Where the first k sections end: at the end of all bytes, where one is not whole.
fn end_of(bytes: &[u8], k: u32) -> usize
    ensures { (result ≤ length bytes.now) × (words_in (drop result bytes.now) ≡ behind k (words_in bytes.now)) }
{
    let mut at = 0;
    for _ in 0..k {
        let Some(end) = first_end(&bytes[at..]) else {
            return bytes.len();
        };
        at += end;
    }
    at
}

// The words of the section at a place, the first at 0.
pub fn section_at(bytes: &[u8], k: u32) -> &[u8]
    ensures { (words_in result.now ≡ section_at k (words_in bytes.now)) × (length result.now % 4 ≡ 0) }
{
    first_words(&bytes[end_of(bytes, k)..])
}

// Whether the words are k sections, and no word is behind them.
pub fn is_cut(bytes: &[u8], k: u32) -> bool
    ensures { result ≡ is_cut k (words_in bytes.now) }
{
    let mut at = 0;
    for _ in 0..k {
        let Some(end) = first_end(&bytes[at..]) else {
            return false;
        };
        at += end;
    }
    bytes.len() - at < 4
}
