// The lines that go on from a record, and the one that says how much of it is handed in.
ghost use Rattle.std.specs.Prelude.{◌≡◌};
ghost use Rattle.case_words.specs.declared.Keyword.TheVariants as Keyword;
ghost use Rattle.case_file.specs.Line.{record_bytes, with_room, room_after, line_after};

use crate::arguments::{ended, number_field};
use crate::lines::whole;
use crate::{Line, Reason, Resumption};

const GREATEST: u32 = 8192;

#[tactic(auto, unfolding(crate::specs::Line::record_bytes))]
pub(crate) fn record_bytes(n: u32) -> Result<Line, Reason>
    ensures { result ≡ record_bytes n }
{
    if n <= GREATEST {
        return Ok(Line::RecordBytes(n));
    }
    Err(Reason::TooMuchRecord)
}

#[tactic(auto, unfolding(crate::specs::Line::with_room))]
fn with_room(asked: Resumption, n: u32) -> Result<Line, Reason>
    ensures { result ≡ with_room asked n }
{
    if n <= GREATEST {
        return Ok(Line::Resume(asked, Some(n)));
    }
    Err(Reason::TooMuchRecord)
}

// The room may be left out.
pub(crate) fn room_line(line: &[u8], at: usize, asked: Resumption) -> Result<Line, Reason>
    ensures { result ≡ room_after line.now at asked }
{
    if ended(line, at) {
        return Ok(Line::Resume(asked, None));
    }
    let (n, at) = number_field(line, at)?;
    whole(line, at, with_room(asked, n))
}

#[tactic(auto, unfolding(crate::specs::Line::line_after))]
pub(crate) fn resume_line(line: &[u8], at: usize) -> Result<Line, Reason>
    ensures { result ≡ line_after line.now at Keyword.Resume }
{
    let (budget, at) = number_field(line, at)?;
    room_line(line, at, Resumption::Run(budget))
}
