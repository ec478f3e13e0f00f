// The text of a bundle, read.
ghost use Rattle.std.specs.Prelude.{◌≡◌};
ghost use Rattle.assembly.specs.Forms.{letter as letter_of, made};
ghost use Rattle.assembly.specs.Operands.{operand_at};
ghost use Rattle.assembler.specs.Reading.{go_on, instruction_of, operands_at, named_at, instruction_at, second_read, after_first, bundle_read, words_of};

use assembly::operands::{operand_at, plain, predicate_read};
use assembly::table::{letter, mnemonic_of};
use assembly::{Mnemonic, Operand};
use case_file::Reason;
use case_file::arguments::ended;
use encoder::Written;
use encoder::bundles::{write_pair, write_single};
use isa::{Instruction, Operation, PredicateOperand};
use making::{make, predicate_of};
use text::fields::next_field;

// An operand of a form.
fn nth_at(line: &[u8], at: usize, form: u32, nth: u32) -> Result<(Operand, usize), Reason>
    ensures { result ≡ operand_at line.now at (letter_of form nth) }
{
    operand_at(line, at, letter(form, nth))
}

fn instruction_of(
    guard: PredicateOperand,
    made: Option<Operation>,
    next: usize,
) -> Result<(Instruction, usize), Reason>
    ensures { result ≡ instruction_of guard made next }
{
    match made {
        None => Err(Reason::NoSuchInstruction),
        Some(operation) => Ok((Instruction { guard, operation }, next)),
    }
}

// The last two operands of a mnemonic.
fn last_operands(
    line: &[u8],
    at: usize,
    g: PredicateOperand,
    m: Mnemonic,
    a: Operand,
    b: Operand,
) -> Result<(Instruction, usize), Reason>
    ensures { result ≡
        go_on (operand_at line.now at (letter_of m.form 2)) (λ c after.
        go_on (operand_at line.now after (letter_of m.form 3)) (λ d end.
        instruction_of g (made m a b c d) end)) }
{
    let (c, at) = nth_at(line, at, m.form, 2)?;
    let (d, at) = nth_at(line, at, m.form, 3)?;
    instruction_of(g, make(m, a, b, c, d), at)
}

// The operands of a mnemonic from a position on.
#[tactic(auto, unfolding(crate::specs::Reading::operands_at))]
fn operands_at(
    line: &[u8],
    at: usize,
    g: PredicateOperand,
    m: Mnemonic,
) -> Result<(Instruction, usize), Reason>
    ensures { result ≡ operands_at line.now at g m }
{
    let (a, at) = nth_at(line, at, m.form, 0)?;
    let (b, at) = nth_at(line, at, m.form, 1)?;
    last_operands(line, at, g, m, a, b)
}

// A mnemonic and its operands, under a guard.
#[tactic(auto, unfolding(crate::specs::Reading::named_at))]
fn named_at(line: &[u8], at: usize, g: PredicateOperand) -> Result<(Instruction, usize), Reason>
    ensures { result ≡ named_at line.now at g }
{
    let f = next_field(line, at);
    let start = f.start;
    let end = f.end;
    if start == end {
        return Err(Reason::FieldMissing);
    }
    operands_at(line, end, g, mnemonic_of(&line[start..end]))
}

// A first field that is a predicate is the guard. Without one the guard is p0.
#[tactic(auto, unfolding(crate::specs::Reading::instruction_at))]
fn instruction_at(line: &[u8], at: usize) -> Result<(Instruction, usize), Reason>
    ensures { result ≡ instruction_at line.now at }
{
    let f = next_field(line, at);
    let start = f.start;
    let end = f.end;
    match predicate_read(&line[start..end], end) {
        Ok((operand, next)) => named_at(line, next, predicate_of(operand)),
        Err(_) => named_at(line, at, predicate_of(plain(0))),
    }
}

// A second instruction, to the line's end.
fn second_read(line: &[u8], at: usize, i: Instruction) -> Result<Written, Reason>
    ensures { result ≡ words_of (second_read line.now i (instruction_at line.now at)) }
{
    let (j, at) = instruction_at(line, at)?;
    if ended(line, at) {
        return Ok(write_pair(i, j));
    }
    Err(Reason::FieldTooMany)
}

// What comes after a first instruction: the line's end, or `;` and a second one.
#[tactic(auto, unfolding(crate::specs::Reading::after_first))]
fn after_first(line: &[u8], at: usize, i: Instruction) -> Result<Written, Reason>
    ensures { result ≡ words_of (after_first line.now at i) }
{
    let f = next_field(line, at);
    let start = f.start;
    let end = f.end;
    if start == end {
        return Ok(write_single(i));
    }
    if &line[start..end] == b";".as_slice() {
        return second_read(line, end, i);
    }
    Err(Reason::FieldTooMany)
}

// The words of one instruction to the line's end, or of two with `;` between them.
#[tactic(auto, unfolding(crate::specs::Reading::bundle_read))]
pub fn read_words(line: &[u8], at: usize) -> Result<Written, Reason>
    ensures { result ≡ words_of (bundle_read line.now at) }
{
    let (i, at) = instruction_at(line, at)?;
    after_first(line, at, i)
}
