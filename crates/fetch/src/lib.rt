// The bundle at an address of the code, for whoever does it or checks it.
#![tactic(auto)]

ghost use Rattle.std.specs.Prelude.{◌≡◌, ◌<◌};
ghost use Rattle.decoder.specs.Decode.{bundle_words};
ghost use Rattle.fetch.specs.Fetch.{is_undecodable, fetched};

use answers::Refusal;
use big_endian::read_word;
use decoder::{bundle_words, decode};
use isa::Bundle;
use word::arithmetic::add;

// A bundle and the address that follows it.
#[derive(Clone, Copy)]
pub struct Fetched {
    pub bundle: Bundle,
    pub following: usize,
}

fn words_of(first: u32) -> usize
    ensures { (result ≡ bundle_words first) × (result < 3) }
{
    if bundle_words(first) == 1 {
        return 1;
    }
    2
}

fn is_undecodable(b: Bundle) -> bool
    ensures { result ≡ is_undecodable b }
{
    match b {
        Bundle::Undecodable => true,
        Bundle::One(_) => false,
        Bundle::Two(_, _) => false,
        Bundle::Long(_) => false,
    }
}

// The bundle at an address, where it lies in the code and decodes, and the address that follows it.
pub fn fetch(code: &[u8], address: u32) -> Result<Fetched, Refusal>
    ensures { result ≡ fetched code.now address }
{
    if address % 4 != 0 {
        return Err(Refusal::OutsideCode);
    }
    let first = read_word(code, address);
    let following = (address as usize) + 4 * words_of(first);
    if code.len() < following {
        return Err(Refusal::OutsideCode);
    }
    let bundle = decode(first, read_word(code, add(address, 4)));
    if is_undecodable(bundle) {
        return Err(Refusal::Undecodable);
    }
    Ok(Fetched { bundle, following })
}
