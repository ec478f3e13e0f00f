// The fields after a line's keyword.
ghost use Rattle.std.specs.Prelude.{◌≡◌};
ghost use Rattle.case_file.specs.Arguments.{is_end, number_field, word_field, code_entry, held_entry, private_entry};

use crate::Reason;
use case_words::{Item, marking_item};
use text::fields::next_field;
use text::numbers::{decimal, word};

// Whether no field is left.
#[tactic(auto, unfolding(crate::specs::Arguments::is_end))]
pub fn ended(line: &[u8], at: usize) -> bool
    ensures { result ≡ is_end line.now at }
{
    let f = next_field(line, at);
    f.start == f.end
}

// A field read as a number or a word, and the position after it.
#[tactic(auto, unfolding(crate::specs::Arguments::argument_at))]
pub(crate) fn number_field(line: &[u8], at: usize) -> Result<(u32, usize), Reason>
    ensures { result ≡ number_field line.now at }
{
    let f = next_field(line, at);
    let start = f.start;
    let end = f.end;
    if start == end {
        return Err(Reason::FieldMissing);
    }
    let n = decimal(&line[start..end]).ok_or(Reason::NotANumber)?;
    Ok((n, end))
}

#[tactic(auto, unfolding(crate::specs::Arguments::argument_at))]
pub(crate) fn word_field(line: &[u8], at: usize) -> Result<(u32, usize), Reason>
    ensures { result ≡ word_field line.now at }
{
    let f = next_field(line, at);
    let start = f.start;
    let end = f.end;
    if start == end {
        return Err(Reason::FieldMissing);
    }
    let w = word(&line[start..end]).ok_or(Reason::NotAWord)?;
    Ok((w, end))
}

// The next entry of a code or record line, and the position after it; nothing at the line's end.
#[tactic(auto, unfolding(crate::specs::Arguments::code_entry))]
pub fn code_entry(line: &[u8], at: usize) -> Result<Option<(u32, usize)>, Reason>
    ensures { result ≡ code_entry line.now at }
{
    if ended(line, at) {
        return Ok(None);
    }
    let entry = word_field(line, at)?;
    Ok(Some(entry))
}

// The same of a held line.
#[tactic(auto, unfolding(crate::specs::Arguments::held_entry))]
pub fn held_entry(line: &[u8], at: usize) -> Result<Option<(u32, usize)>, Reason>
    ensures { result ≡ held_entry line.now at }
{
    if ended(line, at) {
        return Ok(None);
    }
    let entry = number_field(line, at)?;
    Ok(Some(entry))
}

// The same of a private line.
#[tactic(auto, unfolding(crate::specs::Arguments::private_entry))]
pub fn private_entry(line: &[u8], at: usize) -> Result<Option<(Item, usize)>, Reason>
    ensures { result ≡ private_entry line.now at }
{
    let f = next_field(line, at);
    let start = f.start;
    let end = f.end;
    if start == end {
        return Ok(None);
    }
    let item = marking_item(&line[start..end]).ok_or(Reason::NoSuchItem)?;
    Ok(Some((item, end)))
}
