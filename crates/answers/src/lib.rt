// What operations answer: the refusals, a verdict before anything is done, and what is returned in document 01's words.
#![tactic(auto)]

ghost use Rattle.std.specs.Prelude.{◌≡◌};
ghost use Rattle.answers.specs.Refusal.{number};

// Why something is refused. The numbers are those of the documents, under which a refusal leaves the library.
#[derive(Clone, Copy, PartialEq, Eq, Debug)]
pub enum Refusal {
    // Settings outside their limits, or r0 or p0 marked private.
    Limits = 1,
    // A bundle, or an entry, that is not in the code.
    OutsideCode = 2,
    // No bundle.
    Undecodable = 3,
    // A second transfer before the first has happened.
    TransferWaits = 4,
    // An address, or a stack instruction's register, that is no multiple of the width.
    Misaligned = 5,
    // A load or store that is not wholly in its memory or window.
    AccessOutside = 6,
    // St and ss that are no window, or a stack instruction of too many words.
    Window = 7,
    // A spilled or filled word outside the stack area.
    MoveOutside = 8,
    // A rule of the marking that is broken: of the check alone, which tells the rule.
    BrokenRule = 9,
    // Not given any more.
    TrapOrXret = 10,
    // A state that is not well formed.
    IllFormed = 11,
    // An instruction that no words stand for.
    NoWords = 12,
    // A block that the method cache cannot hold.
    NoBlock = 13,
    // Bytes that are no record, or an output with no room for one.
    Record = 14,
    // A list or table that cannot be replayed.
    Replay = 15,
    // A trap while a handler is active.
    HandlerActive = 16,
    // A trap, or a record that is due, without a handler.
    NoHandler = 17,
}

impl Refusal {
    pub fn number(self) -> u32
        ensures { result ≡ number self }
    {
        self as u32
    }
}

// Whether something may be done, or why it is refused.
pub type Verdict = Result<(), Refusal>;
