// The marking: what it calls private. A number that names no register or predicate is not marked.
#![tactic(auto)]

ghost use Rattle.std.specs.Prelude.{◌≡◌};
ghost use Rattle.marking.specs.Marking.{private_register, private_predicate, private_operand, private_store, private_special, public_register, public_predicate, public_special, marking_ok};

use isa::{AccessKind, PredicateOperand, Special};

// What is private (true) and what is public (false): each register, each predicate, sl, sh, and the three stores, which are main
// memory outside the stack area, local memory, and the stack: cache and area together.
#[derive(Clone, Copy)]
pub struct Marking {
    pub registers: [bool; 32],
    pub predicates: [bool; 8],
    pub sl: bool,
    pub sh: bool,
    pub main: bool,
    pub local: bool,
    pub stack: bool,
}

impl Marking {
    pub fn private_register(self, r: u32) -> bool
        ensures { result ≡ private_register self r }
    {
        let k = r as usize;
        if k < 32 {
            return self.registers[k];
        }
        false
    }

    fn private_predicate(self, p: u32) -> bool
        ensures { result ≡ private_predicate self p }
    {
        let k = p as usize;
        if k < 8 {
            return self.predicates[k];
        }
        false
    }

    // A predicate operand, a guard among them.
    pub fn private_operand(self, p: PredicateOperand) -> bool
        ensures { result ≡ private_operand self p }
    {
        self.private_predicate(p.predicate)
    }

    // The store that an access goes to.
    #[tactic(auto, unfolding(crate::specs::Marking::private_store))]
    pub fn private_store(self, kind: AccessKind) -> bool
        ensures { result ≡ private_store self kind }
    {
        match kind {
            AccessKind::Stack => self.stack,
            AccessKind::Local => self.local,
            AccessKind::Cached => self.main,
            AccessKind::Main => self.main,
        }
    }

    // Nothing is written to r0, nor to p0.
    pub fn public_register(self, r: u32) -> bool
        ensures { result ≡ public_register self r }
    {
        (r != 0) & !self.private_register(r)
    }

    pub fn public_predicate(self, p: u32) -> bool
        ensures { result ≡ public_predicate self p }
    {
        (p != 0) & !self.private_predicate(p)
    }

    // A special register as an operand. s0 reads all predicates.
    #[tactic(auto, unfolding(crate::specs::Marking::some))]
    pub fn private_special(self, special: Special) -> bool
        ensures { result ≡ private_special self special }
    {
        let p = self.predicates;
        match special {
            Special::S0 => p[0] | p[1] | p[2] | p[3] | p[4] | p[5] | p[6] | p[7],
            Special::Sl => self.sl,
            Special::Sh => self.sh,
            Special::Ss => false,
            Special::St => false,
            Special::Srb => false,
            Special::Sro => false,
            Special::Sxb => false,
            Special::Sxo => false,
        }
    }

    // A special register as a destination. s0 writes p1 to p7.
    #[tactic(auto, unfolding(crate::specs::Marking::some))]
    pub fn public_special(self, special: Special) -> bool
        ensures { result ≡ public_special self special }
    {
        let p = self.predicates;
        match special {
            Special::S0 => !p[1] | !p[2] | !p[3] | !p[4] | !p[5] | !p[6] | !p[7],
            Special::Sl => !self.sl,
            Special::Sh => !self.sh,
            Special::Ss => true,
            Special::St => true,
            Special::Srb => true,
            Special::Sro => true,
            Special::Sxb => true,
            Special::Sxo => true,
        }
    }

    // Whether refusal 1 lets the marking pass.
    #[tactic(auto, unfolding(crate::specs::Marking::marking_ok))]
    pub fn is_ok(self) -> bool
        ensures { result ≡ marking_ok self }
    {
        !self.private_register(0) & !self.private_predicate(0)
    }
}
