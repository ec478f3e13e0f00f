// What is done to the state inside a bundle, which is by value. The registers and predicates are lent.
ghost use Rattle.std.specs.Prelude.{◌≡◌, Bool, List, ℕ};
ghost use Rattle.core_state.specs.State.{with_register, with_predicate, with_load, landed, going_on, transferred, entered, one_place_on, with_done};
ghost use Rattle.core_state.specs.Core.{joined, waiting_transfer, waiting_load, transfer_words, load_words, Written};

use crate::waiting::{no_load, no_transfer};
use crate::{Core, LoadWords, TransferWords, WaitingLoad, WaitingTransfer};
use effects::Transfer;
use replay::one_more;

impl Core {
    // A register written; r0 stays zero.
    pub fn write_register(self, registers: &mut [u32; 32], r: u32, v: u32) -> Core
        ensures { Written ((ps : List Bool) → joined registers.new ps result ≡ with_register (joined registers.old ps self) r v) result self.transfer self.load self.products }
    {
        registers::write_later(&mut *registers, r, v);
        self
    }

    // A predicate written; p0 stays true.
    pub(crate) fn write_predicate(self, predicates: &mut [bool; 8], p: u32, v: bool) -> Core
        ensures { Written ((rs : List ℕ) → joined rs predicates.new result ≡ with_predicate (joined rs predicates.old self) p v) result self.transfer self.load self.products }
    {
        registers::write_later(&mut *predicates, p, v);
        self
    }

    // The waiting load replaced.
    pub fn with_load(self, load: LoadWords) -> Core
        ensures { Written ((rs : List ℕ) (ps : List Bool) → joined rs ps result ≡ with_load (joined rs ps self) (waiting_load load)) result self.transfer load self.products }
    {
        let specials = self.specials;
        let transfer = self.transfer;
        let products = self.products;
        let replay = self.replay;
        Core {
            specials,
            fetch: self.fetch,
            base: self.base,
            transfer,
            load,
            products,
            replay,
        }
    }

    // The load waiting from the bundle before is written, and waits no more. The result is built anew on both ways: one that is
    // handed back as it came would be copied whole.
    pub fn land_load(self, registers: &mut [u32; 32]) -> Core
        ensures { Written ((ps : List Bool) → joined registers.new ps result ≡ landed (joined registers.old ps self)) result self.transfer (load_words WaitingLoad.Nothing) self.products }
    {
        let load = self.load;
        if load.waits == 0 {
            return self.with_load(no_load());
        }
        self.write_register(&mut *registers, load.register, load.value)
            .with_load(no_load())
    }

    // Going on at an address, with a transfer that waits or none.
    pub(crate) fn go_on(self, fetch: u32, transfer: TransferWords) -> Core
        ensures { Written ((rs : List ℕ) (ps : List Bool) → joined rs ps result ≡ going_on (joined rs ps self) fetch (waiting_transfer transfer)) result transfer self.load self.products }
    {
        let specials = self.specials;
        let load = self.load;
        let products = self.products;
        let replay = self.replay;
        Core {
            specials,
            fetch,
            base: self.base,
            transfer,
            load,
            products,
            replay,
        }
    }

    // A transfer carried out at the end of a bundle, whose following address a call keeps, relative to the old base.
    pub fn transfer(mut self, transfer: Transfer, following: u32) -> Core
        ensures { Written ((rs : List ℕ) (ps : List Bool) → joined rs ps result ≡ transferred (joined rs ps self) transfer following) result (transfer_words WaitingTransfer.Nothing) self.load self.products }
    {
        match transfer {
            Transfer::Br { target } => self.go_on(target, no_transfer()),
            Transfer::Call { target } => {
                let base = self.base;
                let offset = word::arithmetic::sub(following, base);
                self.specials.srb = base;
                self.specials.sro = offset;
                self.base = target;
                self.go_on(target, no_transfer())
            }
            Transfer::Block { target, base } => {
                self.base = base;
                self.go_on(target, no_transfer())
            }
            Transfer::Xret { target, base } => {
                self.base = base;
                self.replay.active = false;
                self.go_on(target, no_transfer())
            }
        }
    }

    // A handler entered, from which xret returns to an address.
    pub fn enter(mut self, handler: u32, back: u32) -> Core
        ensures { Written ((rs : List ℕ) (ps : List Bool) → joined rs ps result ≡ entered (joined rs ps self) handler back) result (transfer_words WaitingTransfer.Nothing) self.load self.products }
    {
        let base = self.base;
        let offset = word::arithmetic::sub(back, base);
        self.specials.sxb = base;
        self.specials.sxo = offset;
        self.base = handler;
        self.replay.active = true;
        self.go_on(handler, no_transfer())
    }

    // The record at the place is taken, and its handler entered.
    pub fn take(self, handler: u32) -> Core
        ensures { Written ((rs : List ℕ) (ps : List Bool) → joined rs ps result ≡ one_place_on (entered (joined rs ps self) handler self.fetch)) result (transfer_words WaitingTransfer.Nothing) self.load self.products }
    {
        let back = self.fetch;
        let mut next = self.enter(handler, back);
        let place = one_more(next.replay.place);
        next.replay.place = place;
        next
    }

    // One bundle more is done in the replay.
    pub fn count(mut self) -> Core
        ensures { Written ((rs : List ℕ) (ps : List Bool) → joined rs ps result ≡ with_done (joined rs ps self)) result self.transfer self.load self.products }
    {
        let done = one_more(self.replay.done);
        self.replay.done = done;
        self
    }
}
