// Digits as they are written in a report.
ghost use Rattle.std.specs.Prelude.{◌≡◌, ◌<◌, [], length};
ghost use Rattle.text.specs.Number.{glyph as glyphOf, hex_before};

fn glyph(d: u32) -> u8
    requires { d < 16 }
    ensures { result ≡ glyphOf d }
{
    if d < 10 {
        48 + (d as u8)
    } else {
        55 + (d as u8)
    }
}

// Fills out with the last hexadecimal digits of n: eight show a word, and two a byte.
pub(crate) fn put_hex(n: u32, out: &mut [u8])
    ensures { out.new ≡ hex_before (length out.old) n [] }
{
    let mut rest = n;
    for at in (0..out.len()).rev() {
        out[at] = glyph(rest % 16);
        rest /= 16;
    }
}
