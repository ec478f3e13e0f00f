// What leaves the program. What the system does with it no contract can say; what a writer that is asked gets, these say.
ghost use Rattle.std.specs.Prelude.{◌≤◌, IsTrue, length, take};
ghost use Rattle.std.specs.Io.KnownBytes.{Appends, Keeps};

use std::io::{Cursor, Error, Write};

// Writes the used part of a buffer, and answers whether that went well. If not, it says so on the writer of errors.
// It takes no Page: what is only read may be lent here, as before, and a Page has to be lent a buffer to write.
pub fn write_out<W: Write, E: Write>(to: &mut W, errors: &mut E, out: &[u8], used: usize) -> bool
    ensures written { IsTrue result → Appends (W.contents to.old) (W.contents to.new) (take used out.now) }
    ensures quiet { IsTrue result → Keeps (E.contents errors.old) (E.contents errors.new) }
{
    let n = used.min(out.len());
    match to.write_all(&out[..n]) {
        Ok(()) => true,
        Err(e) => {
            say_failure(errors, b"the report could not be written", &e);
            false
        }
    }
}

// Writes a line: what failed, a colon, and the system's words for why. A line that cannot be written is left out.
pub fn say_failure<E: Write>(errors: &mut E, what: &[u8], why: &Error) {
    let mut text = Cursor::new([0u8; 256]);
    let _ = write!(text, "{why}");
    let words = text.get_ref();
    let n = words_end(words);
    let _ = errors.write_all(what);
    let _ = errors.write_all(b": ");
    let _ = errors.write_all(&words[..n]);
    let _ = errors.write_all(b"\n");
}

// Where the system's words end: `Display` puts the error's number behind them, and the rest of the text is 0.
fn words_end(text: &[u8]) -> usize
    ensures { result ≤ length text.now }
{
    for i in 0..text.len() {
        if text[i] == 0 || text[i..].starts_with(b" (os error ") {
            return i;
        }
    }
    text.len()
}

#[cfg(test)]
mod tests {
    use super::*;
    use std::io::Result;

    // Takes three bytes, and then none.
    #[derive(Drop)]
    struct Full {
        taken: usize,
    }

    impl Write for Full {
        fn write(&mut self, buf: &[u8]) -> Result<usize> {
            if self.taken >= 3 {
                return Err(Error::from_raw_os_error(28));
            }
            let n = buf.len().min(3 - self.taken);
            self.taken += n;
            Ok(n)
        }

        fn flush(&mut self) -> Result<()> {
            Ok(())
        }
    }

    #[test]
    fn writes_what_is_used(rt: HostRuntime) {
        let mut to = Vec::new(rt.alloc());
        let mut errors = Vec::new(rt.alloc());
        assert!(rt; write_out(&mut to, &mut errors, b"report and more", 6));
        assert!(rt; to.as_slice() == b"report".as_slice());
        assert!(rt; write_out(&mut to, &mut errors, b"!", 2));
        assert!(rt; to.as_slice() == b"report!".as_slice());
        assert!(rt; errors.is_empty());
    }

    #[test]
    fn says_what_could_not_be_written(rt: HostRuntime) {
        let mut to = Full { taken: 0 };
        let mut errors = Vec::new(rt.alloc());
        assert!(rt; !write_out(&mut to, &mut errors, b"report", 6));
        assert!(rt;
            errors.as_slice()
                == b"the report could not be written: No space left on device\n".as_slice()
        );
    }
}
