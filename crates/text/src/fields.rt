// The fields of a line.
ghost use Rattle.std.specs.Prelude.{◌≡◌, ◌+◌, ◌≤◌, length, drop};
ghost use Rattle.text.specs.Field.{spaces, field_length, field_from, is_name_byte, are_name_bytes, is_name};

use crate::Field;

// The first position from a on that holds no space.
fn after_spaces(line: &[u8], a: usize) -> usize
    requires { a ≤ length line.now }
    ensures { (result ≡ a + spaces (drop a line.now)) × (result ≤ length line.now) }
{
    for i in a..line.len() {
        if line[i] != b' ' {
            return i;
        }
    }
    line.len()
}

// The first position from a on at which a field has ended.
fn after_field(line: &[u8], a: usize) -> usize
    requires { a ≤ length line.now }
    ensures { (result ≡ a + field_length (drop a line.now)) × (a ≤ result) × (result ≤ length line.now) }
{
    for i in a..line.len() {
        let c = line[i];
        if (c == b' ') | (c == b'#') {
            return i;
        }
    }
    line.len()
}

// The next field from a on. It is empty where no field is left.
pub fn next_field(line: &[u8], a: usize) -> Field
    ensures { (result ≡ field_from line.now a) × (result.start ≤ result.end) × (result.end ≤ length line.now) }
{
    let start = after_spaces(line, a.min(line.len()));
    let end = after_field(line, start);
    Field { start, end }
}

fn is_name_byte(c: u8) -> bool
    ensures { result ≡ is_name_byte c }
{
    let letter = ((97 <= c) & (c <= 122)) | ((65 <= c) & (c <= 90));
    (letter | ((48 <= c) & (c <= 57))) | (((c == 45) | (c == 95)) | (c == 46))
}

fn are_name_bytes(s: &[u8]) -> bool
    ensures { result ≡ are_name_bytes s.now }
{
    s.iter().all(|c| is_name_byte(*c))
}

// Whether a field is the name of a case.
pub fn is_name(s: &[u8]) -> bool
    ensures { result ≡ is_name s.now }
{
    let sized = (1 <= s.len()) & (s.len() <= 60);
    sized & are_name_bytes(s)
}
