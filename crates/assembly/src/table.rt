// The one table of mnemonics and operands (specs/Forms.antt), as bytes.
ghost use Rattle.std.specs.Prelude.{◌≡◌};
ghost use Rattle.text.specs.Page.{Puts};
ghost use Rattle.assembly.specs.Forms.{forms, sizes, mnemonic_from, start_of, letter as letter_of};
ghost use Rattle.assembly.specs.Forms.{mnemonic_of, name_of};

use crate::Mnemonic;
use text::page::Page;
use text::table::row_of;

// The mnemonics of all forms, one after the other. A number that no function has is an empty row.
const MNEMONICS: [u8; 558] = *b"addi\nsubi\nxori\nsli\nsri\nsrai\nori\nandi\n\
add\nsub\nxor\nsl\nsr\nsra\nor\nand\n\n\n\nnor\nshadd\nshadd2\n\
addl\nsubl\nxorl\nsll\nsrl\nsral\norl\nandl\n\n\n\nnorl\nshaddl\nshadd2l\n\
mul\nmulu\n\
cmpeq\ncmpneq\ncmplt\ncmple\ncmpult\ncmpule\nbtest\n\
cmpeqi\ncmpneqi\ncmplti\ncmplei\ncmpulti\ncmpulei\nbtesti\n\
\n\n\n\n\n\npor\npand\n\n\npxor\n\
bcopy\nmts\nmfs\n\
lws\nlwl\nlwc\nlwm\nlhs\nlhl\nlhc\nlhm\nlbs\nlbl\nlbc\nlbm\nlhus\nlhul\nlhuc\nlhum\nlbus\nlbul\nlbuc\nlbum\n\
sws\nswl\nswc\nswm\nshs\nshl\nshc\nshm\nsbs\nsbl\nsbc\nsbm\n\
sres\nsens\nsfree\nsspill\nsensr\nsspillr\n\
callnd\ncall\nbrnd\nbr\nbrcfnd\nbrcf\ntrap\n\
retnd\nret\nxretnd\nxret\n\
callrnd\ncallr\nbrrnd\nbrr\nbrcfrnd\nbrcfr\n";

// How many rows each form has.
const SIZES: [u32; 27] = [
    8, 14, 14, 2, 7, 7, 11, 1, 1, 1, 20, 12, 1, 1, 1, 1, 1, 1, 2, 2, 2, 1, 2, 2, 2, 2, 2,
];

// The kinds of each form's operands, four letters a form.
const LETTERS: [u8; 108] = *b"rrn rrr rrw rr  prr prn pqq rrnqsr  rs  rrn rnr \
n   n   n   n   r   r   n   i   n   n           r   r   rr  ";

// The form and the function in a row.
fn mnemonic_at(row: u32) -> Mnemonic
    ensures { result ≡ mnemonic_from 0 (sizes forms) row }
{
    let mut function = row;
    for form in 0..27 {
        let size = SIZES[form as usize];
        if function < size {
            return Mnemonic { form, function };
        }
        function -= size;
    }
    Mnemonic { form: 27, function }
}

// The mnemonic that a field is. One that is none has a form behind the table's end.
pub fn mnemonic_of(s: &[u8]) -> Mnemonic
    ensures { result ≡ mnemonic_of s.now }
{
    mnemonic_at(row_of(&MNEMONICS, s) as u32)
}

// The first row of a form.
fn start_of(form: u32) -> usize
    ensures { result ≡ start_of (sizes forms) form }
{
    let mut start: usize = 0;
    for i in 0..27 {
        if i == form {
            return start;
        }
        start += SIZES[i as usize] as usize;
    }
    start
}

#[tactic(auto, using(crate::specs::TableLaws::all_rows), unfolding(crate::specs::Forms::name_of, crate::specs::Forms::mnemonics, crate::specs::Forms::forms, text::specs::Table::table))]
pub fn put_name(page: &mut Page, m: Mnemonic)
    ensures { Puts page.old page.new (name_of m) }
{
    let row = start_of(m.form) + (m.function as usize);
    page.put_row(&MNEMONICS, row);
}

// The letter of a form's operand: a space where there is none.
pub fn letter(form: u32, operand: u32) -> u8
    ensures { result ≡ letter_of form operand }
{
    let at = 4 * (form as usize) + (operand as usize);
    if at < 108 {
        return LETTERS[at];
    }
    b' '
}
