// Sections put into bytes, one behind the other: each function gives the address behind what it put.
ghost use Rattle.std.specs.Prelude.{◌∷◌, [], ◌+◌, ◌*◌, ◌≤◌, length};
ghost use Rattle.alu_effects.specs.AluEffects.{predicates_word};
ghost use Rattle.record_model.specs.Record.{specials_section, transfer_section, load_section, product_section};
ghost use Rattle.record_parts.specs.Few.{few_in};
ghost use Rattle.record.specs.Written.{Put};

use alu_effects::Specials;
use alu_effects::special::read_special;
use big_endian::write_word;
use core_state::{WaitingLoad, WaitingTransfer};
use isa::Special;
use products::Products;
use record_parts::Few;
use record_parts::writing::{load_words, product_words, transfer_words};

// One section: the count of its words, and the words.
pub(crate) fn put_section(out: &mut [u8], at: u32, words: &[u32]) -> u32
    requires { at + 4 * length words.now ≤ 1000000 }
    ensures { Put out.old out.new at result (words.now ∷ []) }
{
    write_word(&mut *out, at, words.len() as u32);
    let mut next = at + 4;
    for word in words {
        write_word(&mut *out, next, *word);
        next += 4;
    }
    next
}

// One of few words.
fn put_few(out: &mut [u8], at: u32, few: Few) -> u32
    requires { (at ≤ 900000) × (few.count ≤ 6) }
    ensures { Put out.old out.new at result (few_in few ∷ []) }
{
    let words = few.words;
    let n = few.count;
    put_section(&mut *out, at, &words[0..n])
}

// Fetch address and base, registers, predicates and the other special registers, from the beginning on.
pub(crate) fn put_registers(
    out: &mut [u8],
    fetch: u32,
    base: u32,
    registers: [u32; 32],
    predicates: [bool; 8],
    specials: Specials,
) -> u32
    ensures { Put out.old out.new 0 result ((fetch ∷ base ∷ []) ∷ registers ∷ (predicates_word predicates ∷ []) ∷ specials_section specials ∷ []) }
{
    let word = read_special(&predicates, specials, Special::S0);
    let first = put_section(&mut *out, 0, &[fetch, base]);
    let second = put_section(&mut *out, first, &registers);
    let third = put_section(&mut *out, second, &[word]);
    let x = specials;
    put_section(
        &mut *out,
        third,
        &[x.sl, x.sh, x.ss, x.st, x.srb, x.sro, x.sxb, x.sxo],
    )
}

// What waits and what is under way.
pub(crate) fn put_waiting(
    out: &mut [u8],
    at: u32,
    transfer: WaitingTransfer,
    load: WaitingLoad,
    products: Products,
) -> u32
    requires { at ≤ 800000 }
    ensures { Put out.old out.new at result (transfer_section transfer ∷ load_section load ∷ product_section products ∷ []) }
{
    let first = put_few(&mut *out, at, transfer_words(transfer));
    let second = put_few(&mut *out, first, load_words(load));
    put_few(&mut *out, second, product_words(products))
}
