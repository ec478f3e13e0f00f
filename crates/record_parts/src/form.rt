// Whether bytes have the form of a record.
ghost use Rattle.std.specs.Prelude.{◌≡◌, eqb, length};
ghost use Rattle.sections.specs.Words.{words_in};
ghost use Rattle.sections.specs.Sections.{section_at};
ghost use Rattle.record_model.specs.Record.{is_transfer, is_load, are_products, fixed_sections, small_words, free_sections, has_form};

use sections::{is_cut, section_at, word_at};

// Whether a section has so many words.
#[tactic(auto, using(sections::specs::WordLaws::words_length))]
fn has_count(bytes: &[u8], k: u32, n: usize) -> bool
    ensures { result ≡ eqb (length (section_at k (words_in bytes.now))) n }
{
    section_at(bytes, k).len() / 4 == n
}

#[tactic(auto, using(sections::specs::WordLaws::words_length), unfolding(record_model::specs::Record::is_transfer))]
fn is_transfer(part: &[u8]) -> bool
    ensures { result ≡ is_transfer (words_in part.now) }
{
    let words = part.len() / 4;
    let kind = word_at(part, 0);
    if kind <= 1 {
        return (words == 0) | (words == 3);
    }
    (words == 0) | ((kind <= 3) & (words == 4))
}

#[tactic(auto, using(sections::specs::WordLaws::words_length), unfolding(record_model::specs::Record::is_load))]
fn is_load(part: &[u8]) -> bool
    ensures { result ≡ is_load (words_in part.now) }
{
    let words = part.len() / 4;
    (words == 0) | (words == 2)
}

#[tactic(auto, using(sections::specs::WordLaws::words_length), unfolding(record_model::specs::Record::are_products))]
fn are_products(part: &[u8]) -> bool
    ensures { result ≡ are_products (words_in part.now) }
{
    let words = part.len() / 4;
    let first = word_at(part, 0);
    let second = word_at(part, 3);
    ((words == 0) | (words == 3)) | ((words == 6) & (first <= second))
}

// The sections whose count is known.
fn fixed_counts(bytes: &[u8], words: usize) -> bool
    ensures { result ≡ fixed_sections words (words_in bytes.now) }
{
    let first = has_count(bytes, 0, 2) & has_count(bytes, 1, 32);
    let next = has_count(bytes, 2, 1) & has_count(bytes, 3, 8);
    let rest = has_count(bytes, 4, words) & has_count(bytes, 8, 12);
    (first & next) & (rest & has_count(bytes, 10, 3))
}

// Those that may be empty.
#[tactic(auto, using(sections::specs::WordLaws::words_length))]
fn free_counts(bytes: &[u8]) -> bool
    ensures { result ≡ free_sections (words_in bytes.now) }
{
    let transfer = is_transfer(section_at(bytes, 5));
    let load = is_load(section_at(bytes, 6));
    let products = are_products(section_at(bytes, 7));
    (transfer & load) & (products & (section_at(bytes, 9).len() / 4 <= 16))
}

// The words that cannot have every value.
fn small_words(bytes: &[u8]) -> bool
    ensures { result ≡ small_words (words_in bytes.now) }
{
    let predicates = word_at(section_at(bytes, 2), 0);
    let active = word_at(section_at(bytes, 10), 0);
    (predicates < 256) & (active <= 1)
}

// Whole words, eleven sections, counts and values that a record has.
#[tactic(auto, unfolding(record_model::specs::Record::has_form, record_model::specs::Record::is_record))]
pub fn has_form(bytes: &[u8], words: usize) -> bool
    ensures { result ≡ has_form words bytes.now }
{
    let whole = bytes.len() % 4 == 0;
    let fixed = fixed_counts(bytes, words);
    let small = small_words(bytes);
    let free = free_counts(bytes);
    whole & (is_cut(bytes, 11) & ((fixed & small) & free))
}
