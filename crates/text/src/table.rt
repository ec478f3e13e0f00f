// Tables of texts: rows that each end with a line end.
ghost use Rattle.std.specs.Prelude.{◌≡◌};
ghost use Rattle.text.specs.Page.{Puts};
ghost use Rattle.text.specs.Table.{row_text, row_of, met_to};

use crate::page::Page;

impl<'a> Page<'a> {
    // Puts the row of a number; nothing where there is none.
    pub fn put_row(&mut self, table: &[u8], row: usize)
        ensures { Puts self.old self.new (row_text table.now row) }
    {
        let mut left = row;
        for b in table {
            if *b == b'\n' {
                if left == 0 {
                    return;
                }
                left -= 1;
            } else if left == 0 {
                self.put_byte(*b);
            }
        }
    }
}

// How many bytes of a text are met with one byte more of a row: one more than it has where they differ.
fn matched(s: &[u8], j: usize, b: u8) -> usize
    ensures { result ≡ met_to s.now j b }
{
    if s.len() <= j {
        return s.len() + 1;
    }
    if s[j] != b {
        return s.len() + 1;
    }
    j + 1
}

// The number of the first row that is a text; the number of rows where none is.
pub fn row_of(table: &[u8], s: &[u8]) -> usize
    ensures { result ≡ row_of table.now s.now }
{
    let mut row = 0;
    let mut j = 0;
    for b in table {
        if *b == b'\n' {
            if j == s.len() {
                return row;
            }
            j = 0;
            row += 1;
        } else {
            j = matched(s, j, *b);
        }
    }
    row
}
