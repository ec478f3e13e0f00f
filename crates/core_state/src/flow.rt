// What a slot writes, and the end of a bundle.
ghost use Rattle.std.specs.Prelude.{◌≡◌, Bool, List, ℕ};
ghost use Rattle.core_state.specs.Core.{joined, waiting_transfer, nearer_words, begun_words, Written, found_state, left_state};
ghost use Rattle.core_state.specs.Writes.{write_alu, delay_slots, nearer, begun};

use crate::waiting::{one_less, transfer_in, transfer_waits};
use crate::{Core, TransferWords};
use alu_effects::AluEffect;
use effects::Transfer;

// How many bundles a delayed transfer waits.
fn delay_slots(t: Transfer) -> u32
    ensures { result ≡ delay_slots t }
{
    match t {
        Transfer::Br { target: _ } => 2,
        Transfer::Call { target: _ } => 3,
        Transfer::Block { target: _, base: _ } => 3,
        Transfer::Xret { target: _, base: _ } => 3,
    }
}

impl Core {
    // What a slot's ALU effect writes.
    pub fn write_alu(
        self,
        registers: &mut [u32; 32],
        predicates: &mut [bool; 8],
        e: AluEffect,
    ) -> Core
        ensures { Written (left_state registers predicates result ≡ write_alu e (found_state registers predicates self)) result self.transfer self.load self.products }
    {
        match e {
            AluEffect::Nothing => self,
            AluEffect::Register { rd, value } => self.write_register(&mut *registers, rd, value),
            AluEffect::Predicate { pd, value } => self.write_predicate(&mut *predicates, pd, value),
        }
    }

    // A transfer that waits comes one bundle nearer, and is carried out when it falls due.
    pub fn nearer(self, waiting: TransferWords, following: u32) -> Core
        ensures { Written ((rs : List ℕ) (ps : List Bool) → joined rs ps result ≡ nearer (waiting_transfer waiting) following (joined rs ps self)) result (nearer_words waiting) self.load self.products }
    {
        if waiting.kind == 0 {
            return self.go_on(following, waiting);
        }
        if waiting.wait <= 1 {
            return self.transfer(transfer_in(waiting), following);
        }
        self.go_on(following, one_less(waiting))
    }

    // A transfer of this bundle: it waits for its delay slots, or is carried out at once.
    pub fn begin(self, delayed: bool, transfer: Transfer, following: u32) -> Core
        ensures { Written ((rs : List ℕ) (ps : List Bool) → joined rs ps result ≡ begun delayed transfer following (joined rs ps self)) result (begun_words delayed transfer) self.load self.products }
    {
        if delayed {
            let wait = delay_slots(transfer);
            return self.go_on(following, transfer_waits(transfer, wait));
        }
        self.transfer(transfer, following)
    }
}
