// A file, read in pieces and cut into lines.
#![tactic(auto)]

ghost use Rattle.std.specs.Prelude.{◌≡◌};
ghost use Rattle.case_input.specs.Input.{closed, going_on, at_file_end, Piece, after_byte, line_after_byte, Look, HasRead, TakesBytes, TellsFailure};

use case_kept::buffers::{Bytes, LineBytes};
use std::io::{Error, Read};

const LONGEST: usize = 4000;

// What a look at the file gave: a line of some bytes, or why there is none. No Result of an Option is plainer: the end is no error, and
// that nothing is found yet is no end.
#[derive(Clone, Copy, PartialEq, Eq, Debug)]
pub enum Found {
    Nothing,
    Line(usize),
    End,
    TooLong,
    Unreadable,
}

// The bytes of the piece from at to end are not taken yet, and held bytes of a line that has not ended are. A file that has
// ended is not read again.
#[derive(Clone, Copy, PartialEq, Eq, Debug)]
pub struct Input {
    pub at: usize,
    pub end: usize,
    pub held: usize,
    pub ended: bool,
    pub found: Found,
}

// Before the first look.
pub fn no_input() -> Input
    ensures { result ≡ going_on 0 0 0 Found.Nothing }
{
    going_on(0, 0, 0, Found::Nothing)
}

fn ended(found: Found) -> Input
    ensures { result ≡ closed found }
{
    Input {
        at: 0,
        end: 0,
        held: 0,
        ended: true,
        found,
    }
}

fn going_on(at: usize, end: usize, held: usize, found: Found) -> Input
    ensures { result ≡ going_on at end held found }
{
    Input {
        at,
        end,
        held,
        ended: false,
        found,
    }
}

// The end of the file: a last line without a line end is a line.
fn file_end(held: usize) -> Input
    ensures { result ≡ at_file_end held }
{
    if held == 0 {
        return ended(Found::End);
    }
    ended(Found::Line(held))
}

// The next piece of the file. Why it cannot be read goes into failure.
fn read_piece<R: Read>(
    file: &mut R,
    failure: &mut Option<Error>,
    piece: &mut Bytes,
    held: usize,
) -> Input
    ensures piece { Piece held result }
    ensures bytes { HasRead (R.remaining file.old) (R.remaining file.new) result piece.new }
    ensures failure { TellsFailure result failure.old failure.new }
{
    match file.read(piece) {
        Ok(0) => file_end(held),
        Ok(n) => going_on(0, n, held, Found::Nothing),
        Err(e) => {
            *failure = Some(e);
            ended(Found::Unreadable)
        }
    }
}

// A byte of the file ends a line or is held.
fn take_byte(line: &mut LineBytes, b: u8, at: usize, end: usize, held: usize) -> Input
    ensures { (result ≡ after_byte b at end held) × (line.new ≡ line_after_byte line.old b held) }
{
    if b == b'\n' {
        return going_on(at, end, 0, Found::Line(held));
    }
    if LONGEST <= held {
        return ended(Found::TooLong);
    }
    line[held] = b;
    going_on(at, end, held + 1, Found::Nothing)
}

// Looks at the next byte, or reads a piece where all is taken. Where the file cannot be read, failure says why; else it stays as it was.
pub fn look<R: Read>(
    file: &mut R,
    failure: &mut Option<Error>,
    piece: &mut Bytes,
    line: &mut LineBytes,
    s: Input,
) -> Input
    ensures look { Look s piece.old line.old result piece.new line.new }
    ensures bytes { TakesBytes s (R.remaining file.old) (R.remaining file.new) result piece.new }
    ensures failure { TellsFailure result failure.old failure.new }
{
    if s.ended {
        return ended(Found::End);
    }
    let at = s.at;
    let end = s.end.min(65536);
    if at < end {
        return take_byte(&mut *line, piece[at], at + 1, end, s.held);
    }
    read_piece(file, failure, piece, s.held)
}

#[cfg(test)]
mod tests {
    use super::*;

    // Gives its bytes at once, and cannot be read behind them.
    #[derive(Drop)]
    struct Torn<'a> {
        bytes: &'a [u8],
    }

    impl Read for Torn<'_> {
        fn read(&mut self, buf: &mut [u8]) -> std::io::Result<usize> {
            if self.bytes.is_empty() {
                return Err(Error::from_raw_os_error(5));
            }
            self.bytes.read(buf)
        }
    }

    // Each line, a bar behind it, and at the end what ended the file: '.' its end, '?' that it cannot be read, '!' a line too long.
    fn lines_of<R: Read>(
        rt: &HostRuntime,
        file: &mut R,
        failure: &mut Option<Error>,
    ) -> std::io::Result<Vec<u8>> {
        let mut said = Vec::new(rt.alloc());
        let mut piece = [0u8; 65536];
        let mut line = [0u8; 4000];
        let mut s = no_input();
        for _ in 0..100000 {
            s = look(file, failure, &mut piece, &mut line, s);
            match s.found {
                Found::Nothing => {}
                Found::Line(n) => {
                    said.extend_from_slice(&line[..n.min(4000)])?;
                    said.push(b'|')?;
                }
                Found::End => {
                    said.push(b'.')?;
                    break;
                }
                Found::TooLong => {
                    said.push(b'!')?;
                    break;
                }
                Found::Unreadable => {
                    said.push(b'?')?;
                    break;
                }
            }
        }
        Ok(said)
    }

    #[test]
    fn cuts_lines(rt: HostRuntime) -> std::io::Result<()> {
        let mut failure = None;
        for (text, want) in [
            ("", "."),
            ("\n", "|."),
            ("ab\n\ncd", "ab||cd|."),
            ("ab\n", "ab|."),
        ] {
            let mut file = text.as_bytes();
            let said = lines_of(&rt, &mut file, &mut failure)?;
            assert!(rt; said.as_slice() == want.as_bytes(), "{text:?}");
        }
        assert!(rt; failure.is_none());
        Ok(())
    }

    #[test]
    fn refuses_long_lines(rt: HostRuntime) -> std::io::Result<()> {
        let mut failure = None;
        for (n, want) in [(4000, b'.'), (4001, b'!')] {
            let text = vec![in rt.alloc(); b'a'; n]?;
            let mut file = text.as_slice();
            let said = lines_of(&rt, &mut file, &mut failure)?;
            assert!(rt; said.last() == Some(&want), "{n}");
        }
        Ok(())
    }

    #[test]
    fn tells_why_a_file_is_torn(rt: HostRuntime) -> std::io::Result<()> {
        let mut failure = None;
        let mut file = Torn { bytes: b"ab\ncd" };
        let said = lines_of(&rt, &mut file, &mut failure)?;
        assert!(rt; said.as_slice() == b"ab|?".as_slice());
        assert!(rt; matches!(failure, Some(e) if e.raw_os_error() == Some(5)));
        Ok(())
    }
}
