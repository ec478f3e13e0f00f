// A lent buffer of which the bytes at its front are used, and texts put behind them. What the buffer has no room for is left out.
ghost use Rattle.std.specs.Prelude.{◌≡◌, [], ◌∷◌};
ghost use Rattle.text.specs.Number.{decimal_text, word_text, byte_text};
ghost use Rattle.text.specs.Page.{Puts, page, shown};

use crate::digits::put_hex;

#[derive(Drop)]
pub struct Page<'a> {
    pub out: &'a mut [u8],
    pub used: usize,
}

impl<'a> Page<'a> {
    // An empty page.
    pub fn new(out: &'a mut [u8]) -> Page<'a>
        ensures same { result.out.ghost_name ≡ out.entry.ghost_name }
        ensures empty { shown result ≡ page 0 out.old }
    {
        Page { out, used: 0 }
    }

    pub fn put_byte(&mut self, b: u8)
        ensures { Puts self.old self.new (b ∷ []) }
    {
        if self.used < self.out.len() {
            let at = self.used;
            self.out[at] = b;
            self.used = at + 1;
        }
    }

    pub fn put(&mut self, s: &[u8])
        ensures { Puts self.old self.new s.now }
    {
        for b in s {
            self.put_byte(*b);
        }
    }

    // A number in decimal.
    #[tactic(auto, using(crate::specs::DecimalLaws::decimal_text_lem))]
    pub fn put_decimal(&mut self, n: u64)
        ensures { Puts self.old self.new (decimal_text n) }
    {
        let mut digits = [0u8; 20];
        let k = io::decimal(n, &mut digits);
        self.put(&digits[..k]);
    }

    // A word as eight hexadecimal digits.
    pub fn put_word(&mut self, w: u32)
        ensures { Puts self.old self.new (word_text w) }
    {
        let mut digits = [0u8; 8];
        put_hex(w, &mut digits);
        self.put(&digits);
    }

    // A byte as two hexadecimal digits.
    pub fn put_two_digits(&mut self, b: u8)
        ensures { Puts self.old self.new (byte_text b) }
    {
        let mut digits = [0u8; 2];
        put_hex(b as u32, &mut digits);
        self.put(&digits);
    }
}
