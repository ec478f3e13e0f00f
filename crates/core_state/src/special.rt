// Writing the special registers, and the products: those that land there, and those that begin.
ghost use Rattle.std.specs.Prelude.{◌≡◌, Bool, true, List, ◌∷◌, ℕ, ◌/◌};
ghost use Rattle.products.specs.Words.{nearer_product_words, more_product_words};
ghost use Rattle.core_state.specs.Core.{joined, Written};
ghost use Rattle.core_state.specs.State.{predicates_of, with_special, with_stack, arrived, with_begun};

use crate::Core;
use isa::Special;
use products::words::{is_due, nearer_products, one_more};

// The predicates that a word written to s0 makes: p0 is true, p1 to p7 are bits 1 to 7.
fn predicates_of(v: u32) -> [bool; 8]
    ensures { result ≡ true ∷ predicates_of 7 (v / 2) }
{
    let a = v / 2;
    let b = a / 2;
    let c = b / 2;
    let d = c / 2;
    let e = d / 2;
    let f = e / 2;
    let g = f / 2;
    [
        true,
        a % 2 == 1,
        b % 2 == 1,
        c % 2 == 1,
        d % 2 == 1,
        e % 2 == 1,
        f % 2 == 1,
        g % 2 == 1,
    ]
}

impl Core {
    pub fn write_special(mut self, predicates: &mut [bool; 8], s: Special, v: u32) -> Core
        ensures { Written ((rs : List ℕ) → joined rs predicates.new result ≡ with_special (joined rs predicates.old self) s v) result self.transfer self.load self.products }
    {
        match s {
            Special::S0 => *predicates = predicates_of(v),
            Special::Sl => self.specials.sl = v,
            Special::Sh => self.specials.sh = v,
            Special::Ss => self.specials.ss = v,
            Special::St => self.specials.st = v,
            Special::Srb => self.specials.srb = v,
            Special::Sro => self.specials.sro = v,
            Special::Sxb => self.specials.sxb = v,
            Special::Sxo => self.specials.sxo = v,
        }
        self
    }

    // The product that falls due is written to sl and sh, and those under way come one bundle nearer.
    pub fn arrive(mut self) -> Core
        ensures { Written ((rs : List ℕ) (ps : List Bool) → joined rs ps result ≡ arrived (joined rs ps self)) result self.transfer self.load (nearer_product_words self.products) }
    {
        let products = self.products;
        let next = nearer_products(products);
        self.products = next;
        if is_due(products) {
            let landing = products.first;
            self.specials.sl = landing.low;
            self.specials.sh = landing.high;
            return self;
        }
        self
    }

    // A multiply begins a product.
    pub fn begin_product(mut self, low: u32, high: u32) -> Core
        ensures { Written ((rs : List ℕ) (ps : List Bool) → joined rs ps result ≡ with_begun (joined rs ps self) low high) result self.transfer self.load (more_product_words self.products low high) }
    {
        let products = self.products;
        let more = one_more(products, low, high);
        self.products = more;
        self
    }

    pub fn write_stack(mut self, st: u32, ss: u32) -> Core
        ensures { Written ((rs : List ℕ) (ps : List Bool) → joined rs ps result ≡ with_stack (joined rs ps self) st ss) result self.transfer self.load self.products }
    {
        self.specials.st = st;
        self.specials.ss = ss;
        self
    }
}
