// What an operation changed: a line for each word that differs from its copy.
#![tactic(auto, using(text::specs::PageLaws::texts), unfolding(crate::specs::Changes::change_line, crate::specs::Changes::change_at, crate::specs::Changes::cache_change, crate::specs::Changes::changes_text))]

ghost use Rattle.std.specs.Prelude.{◌≡◌, ◌*◌, ◌≤◌, length};
ghost use Rattle.text.specs.Field.{same_bytes};
ghost use Rattle.text.specs.Page.{Puts};
ghost use Rattle.case_report.specs.Changes.{byte_texts, change_line, word, change_at, word_changes, memory_changes, cache_line, cache_change, cache_changes, changes_text};

use crate::form::say;
use case_kept::buffers::{CACHE_COPY, COPY, Cache, Memory};
use case_kept::extent::Extents;
use text::page::Page;

pub(crate) fn put_bytes(page: &mut Page, s: &[u8])
    ensures { Puts page.old page.new (byte_texts s.now) }
{
    for b in s {
        page.put_two_digits(*b);
    }
}

// The line of a changed word: the name of the memory, the word's address, and the bytes that it has now.
fn put_change(page: &mut Page, label: &[u8], address: usize, word: &[u8])
    ensures { Puts page.old page.new (change_line label.now address word.now) }
{
    page.put(label);
    page.put_decimal(address as u64);
    page.put_byte(b' ');
    put_bytes(page, word);
    page.put_byte(b'\n');
}

// Whether word k is as it was. Nearly all words are compared here, so that only the last one, which may be shorter than 4 bytes, is
// left to a loop.
fn is_same_word(after: &[u8], before: &[u8], k: usize) -> bool
    requires { (4 * k ≤ length after.now) × (length before.now ≡ length after.now) }
    ensures { result ≡ same_bytes (word after.now k) (word before.now k) }
{
    let a = 4 * k;
    if after.len() - a < 4 {
        return after[a..] == before[a..];
    }
    let front = (after[a] == before[a]) & (after[a + 1] == before[a + 1]);
    let back = (after[a + 2] == before[a + 2]) & (after[a + 3] == before[a + 3]);
    front & back
}

// Word k of a memory, if it changed.
fn put_if_changed(page: &mut Page, label: &[u8], after: &[u8], before: &[u8], k: usize)
    requires { (4 * k ≤ length after.now) × (length before.now ≡ length after.now) }
    ensures { Puts page.old page.new (change_at label.now after.now before.now k) }
{
    if is_same_word(after, before, k) {
        return;
    }
    let start = 4 * k;
    let end = start + (after.len() - start).min(4);
    put_change(page, label, start, &after[start..end]);
}

fn put_words(page: &mut Page, label: &[u8], after: &[u8], before: &[u8])
    requires { length before.now ≡ length after.now }
    ensures { Puts page.old page.new (word_changes label.now after.now before.now) }
{
    for k in 0..after.len() / 4 + 1 {
        put_if_changed(page, label, after, before, k);
    }
}

// The changed words of the first n bytes of a memory.
#[tactic(auto, unfolding(crate::specs::Changes::memory_changes))]
fn put_memory(page: &mut Page, label: &[u8], memory: &Memory, n: usize)
    ensures { Puts page.old page.new (memory_changes label.now memory.now n) }
{
    let end = n.min(COPY);
    let bytes = &memory[..];
    put_words(page, label, &bytes[0..end], &bytes[COPY..COPY + end]);
}

fn put_cache_line(page: &mut Page, k: usize, w: u32)
    ensures { Puts page.old page.new (cache_line k w) }
{
    say(page, b"cache % #\n", &[k as u64, w as u64]);
}

fn put_cache_word(page: &mut Page, cache: &Cache, k: usize)
    requires { k ≤ 512 }
    ensures { Puts page.old page.new (cache_change cache.now k) }
{
    let w = cache[k];
    if w == cache[CACHE_COPY + k] {
        return;
    }
    put_cache_line(page, k, w);
}

// The changed words of the first n stack cache words.
fn put_cache(page: &mut Page, cache: &Cache, n: usize)
    ensures { Puts page.old page.new (cache_changes cache.now n) }
{
    for k in 0..n.min(CACHE_COPY) {
        put_cache_word(page, cache, k);
    }
}

pub fn put_changes(page: &mut Page, main: &Memory, local: &Memory, cache: &Cache, e: Extents)
    ensures { Puts page.old page.new (changes_text main.now local.now cache.now e) }
{
    put_memory(page, b"main ", main, e.main);
    put_memory(page, b"local ", local, e.local);
    put_cache(page, cache, e.words);
}
