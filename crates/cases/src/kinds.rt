// What a line is to a case.
use crate::{Asked, Kind, Shown};
use assembler::reading::read_words;
use case_file::lines::read_line;
use case_file::{Line, Reason};
use case_kept::kept::{DESCRIBED, NO_CASE};

// A bundle that is asked for by its text: a mistake there is one of the line.
fn written_kind(line: &[u8], text: usize) -> Result<Kind, Reason> {
    let words = read_words(line, text)?;
    Ok(Kind::Show(Shown::Words(words)))
}

fn kind_of(said: Line, line: &[u8]) -> Result<Kind, Reason> {
    match said {
        Line::Empty => Ok(Kind::Empty),
        Line::Case { name } => Ok(Kind::Start(name)),
        Line::Run(n) => Ok(Kind::Operation(Asked::Run(n))),
        Line::Step => Ok(Kind::Operation(Asked::Step)),
        Line::Check => Ok(Kind::Operation(Asked::Check)),
        Line::Save => Ok(Kind::Operation(Asked::Save)),
        Line::Resume(asked, room) => Ok(Kind::Operation(Asked::Resume(asked, room))),
        Line::Write { text } => written_kind(line, text),
        Line::Listing => Ok(Kind::Show(Shown::Listing)),
        _ => Ok(Kind::Description(said)),
    }
}

// A line of a kind that is no mistake itself may be one in a phase: description lines are taken only while the case is
// described, and no line of a case before the first.
fn judge_phase(phase: u64, kind: Kind) -> Result<(), Reason> {
    match kind {
        Kind::Operation(_) | Kind::Show(_) if phase == NO_CASE => Err(Reason::BeforeFirstCase),
        Kind::Description(_) if phase == NO_CASE => Err(Reason::BeforeFirstCase),
        Kind::Description(_) if phase != DESCRIBED => Err(Reason::AfterOperation),
        _ => Ok(()),
    }
}

// What a line is to a case in a phase, or why it is a mistake.
pub(crate) fn read_kind(phase: u64, line: &[u8]) -> Result<Kind, Reason> {
    let kind = kind_of(read_line(line)?, line)?;
    judge_phase(phase, kind)?;
    Ok(kind)
}

// What is told of a mistake: first what cannot be seen in the line, a tab or a carriage return in front of its comment.
pub(crate) fn reason(line: &[u8], r: Reason) -> Reason {
    for b in line {
        match *b {
            b'#' => return r,
            b'\t' | b'\r' => return Reason::UnseenByte,
            _ => {}
        }
    }
    r
}
