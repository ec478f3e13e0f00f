// Numbers put into the bits of a word. A range of bits is given by its limit, the least number that it has no room for, and by its place,
// the number that its lowest bit stands for.
ghost use Rattle.std.specs.Prelude.{◌≡◌, ◌*◌};
ghost use Rattle.word.specs.Word.{add};
ghost use Rattle.fields.specs.Place.{grown};
ghost use Rattle.fields.specs.Fields.{operand_number, twos_complement};

use isa::PredicateOperand;
use word::sign::unsigned;

fn grow(w: u32, place: u32, n: u32) -> u32
    ensures { result ≡ add w (n * place) }
{
    (((w as u64) + (n as u64) * (place as u64)) % 4294967296) as u32
}

// Where there is no word none comes about.
pub fn put(w: Option<u32>, limit: u32, place: u32, n: u32) -> Option<u32>
    ensures { result ≡ grown w limit place n }
{
    let x = w?;
    if n < limit {
        return Some(grow(x, place, n));
    }
    None
}

// The four bits of a predicate operand; 16 for a predicate above 7, which no four bits hold.
pub fn operand_number(p: PredicateOperand) -> u32
    ensures { result ≡ operand_number p }
{
    let predicate = p.predicate;
    if predicate < 8 {
        if p.negated {
            return 8 + predicate;
        }
        return predicate;
    }
    16
}

// The 22 bits of br's words; 2 ^ 22 where there are none.
pub fn branch_number(z: i32) -> u32
    ensures { result ≡ twos_complement 22 z }
{
    let n = unsigned(z);
    if n < 2097152 {
        return n;
    }
    if 4292870144 <= n {
        return n - 4290772992;
    }
    4194304
}
