// What the slots of a bundle do: their operations read in the state at the start of the bundle.
ghost use Rattle.std.specs.Prelude.{◌≡◌, List, ℕ};
ghost use Rattle.effects.specs.Effect.{start, at_start, register, access_address, address, amount_words, amount_aligned, stack_effect, transfer_of, effect_of, slot_one_effect, slot_one, slot_two};

use crate::{AtStart, Effect, Transfer};
use alu_effects::either_slot::{alu_effect, operand, register, slot_two_effect};
use alu_effects::special::read_special;
use alu_effects::{AluEffect, Specials};
use isa::{AccessKind, Bundle, Instruction, Operation, StackAmount, StackOperation, Target};
use memory::width::{load_scale, store_scale};
use replay::handler_at;
use stack_cache::StackControl;
use word::arithmetic::add;
use word::bits::shift_left;

// A stack access is relative to st.
#[tactic(auto, unfolding(crate::specs::Effect::access_address))]
fn access_address(kind: AccessKind, st: u32, a: u32) -> u32
    ensures { result ≡ access_address kind st a }
{
    match kind {
        AccessKind::Stack => add(st, a),
        AccessKind::Local => a,
        AccessKind::Cached => a,
        AccessKind::Main => a,
    }
}

// The words that a stack instruction's operand says.
#[tactic(auto, unfolding(crate::specs::Effect::amount_words))]
fn amount_words(registers: &[u32], a: StackAmount) -> u32
    ensures { result ≡ amount_words registers.now a }
{
    match a {
        StackAmount::Words(n) => n,
        StackAmount::Register(r) => register(registers, r) / 4,
    }
}

#[tactic(auto, unfolding(crate::specs::Effect::amount_aligned))]
fn amount_aligned(registers: &[u32], a: StackAmount) -> bool
    ensures { result ≡ amount_aligned registers.now a }
{
    match a {
        StackAmount::Words(_) => true,
        StackAmount::Register(r) => register(registers, r) % 4 == 0,
    }
}

#[tactic(auto, unfolding(crate::specs::Effect::stack_effect))]
fn stack_effect(registers: &[u32], o: StackOperation) -> Effect
    ensures { result ≡ stack_effect registers.now o }
{
    match o {
        StackOperation::Sres(n) => Effect::Stack {
            control: StackControl::Sres,
            words: n,
            aligned: true,
        },
        StackOperation::Sens(a) => Effect::Stack {
            control: StackControl::Sens,
            words: amount_words(registers, a),
            aligned: amount_aligned(registers, a),
        },
        StackOperation::Sfree(n) => Effect::Stack {
            control: StackControl::Sfree,
            words: n,
            aligned: true,
        },
        StackOperation::Sspill(a) => Effect::Stack {
            control: StackControl::Sspill,
            words: amount_words(registers, a),
            aligned: amount_aligned(registers, a),
        },
    }
}

// The address of an access: the base register plus the scaled immediate, and for the stack st as well.
fn address(registers: &[u32], st: u32, kind: AccessKind, scale: u32, ra: u32, offset: u32) -> u32
    ensures { result ≡ address registers.now st kind scale ra offset }
{
    let a = add(register(registers, ra), shift_left(offset, scale));
    access_address(kind, st, a)
}

impl AtStart<'_> {
    fn register(&self, r: u32) -> u32
        ensures { result ≡ register (at_start self.now) r }
    {
        let registers = self.registers;
        register(registers, r)
    }

    // Where a transfer of this bundle goes.
    #[tactic(auto, unfolding(crate::specs::Effect::transfer_of))]
    fn transfer_of(&self, t: Target) -> Transfer
        ensures { result ≡ transfer_of (at_start self.now) t }
    {
        match t {
            Target::Call(n) => Transfer::Call {
                target: shift_left(n, 2),
            },
            Target::CallRegister(r) => Transfer::Call {
                target: self.register(r),
            },
            Target::Br(words) => Transfer::Br {
                target: add(self.fetch, shift_left(word::sign::unsigned(words), 2)),
            },
            Target::BrRegister(r) => Transfer::Br {
                target: self.register(r),
            },
            Target::Brcf(n) => {
                let base = shift_left(n, 2);
                Transfer::Block { target: base, base }
            }
            Target::BrcfRegister(b, o) => {
                let base = self.register(b);
                let offset = self.register(o);
                let target = add(base, offset);
                Transfer::Block { target, base }
            }
            Target::Ret => {
                let base = self.specials.srb;
                Transfer::Block {
                    target: add(base, self.specials.sro),
                    base,
                }
            }
        }
    }

    fn address(&self, kind: AccessKind, scale: u32, ra: u32, offset: u32) -> u32
        ensures { result ≡ address (at_start self.now).registers self.now.specials.st kind scale ra offset }
    {
        let registers = self.registers;
        address(registers, self.specials.st, kind, scale, ra, offset)
    }

    // What an operation does.
    #[tactic(auto, unfolding(crate::specs::Effect::effect_of))]
    fn effect(&self, o: Operation) -> Effect
        ensures { result ≡ effect_of (at_start self.now) o }
    {
        let registers = self.registers;
        let predicates = self.predicates;
        let table = self.table;
        match o {
            Operation::Alu(a) => Effect::Alu(alu_effect(registers, predicates, a)),
            Operation::Multiply { function, rs1, rs2 } => {
                let p = alu::multiply(function, self.register(rs1), self.register(rs2));
                Effect::Product {
                    low: (p % 4294967296) as u32,
                    high: (p / 4294967296) as u32,
                }
            }
            Operation::Mts { special, rs1 } => Effect::Special {
                special,
                value: self.register(rs1),
            },
            Operation::Mfs { rd, special } => Effect::Alu(AluEffect::Register {
                rd,
                value: read_special(predicates, self.specials, special),
            }),
            Operation::Load {
                kind,
                width,
                rd,
                ra,
                offset,
            } => Effect::Load {
                kind,
                width,
                rd,
                address: self.address(kind, load_scale(width), ra, offset),
            },
            Operation::Store {
                kind,
                width,
                ra,
                rs,
                offset,
            } => Effect::Store {
                kind,
                width,
                address: self.address(kind, store_scale(width), ra, offset),
                value: self.register(rs),
            },
            Operation::StackControl(operation) => stack_effect(registers, operation),
            Operation::Transfer { delayed, target } => Effect::Transfer {
                delayed,
                transfer: self.transfer_of(target),
            },
            Operation::Trap(vector) => Effect::Trap {
                vector,
                handler: handler_at(table, vector),
            },
            Operation::Xret { delayed } => {
                let base = self.specials.sxb;
                let target = add(base, self.specials.sxo);
                Effect::Transfer {
                    delayed,
                    transfer: Transfer::Xret { target, base },
                }
            }
        }
    }

    // What the instruction of slot one does: nothing where its guard is false.
    #[tactic(auto, unfolding(crate::specs::Effect::slot_one_effect))]
    fn slot_one_effect(&self, i: Instruction) -> Effect
        ensures { result ≡ slot_one_effect (at_start self.now) i }
    {
        let predicates = self.predicates;
        let guard = i.guard;
        let operation = i.operation;
        if operand(predicates, guard) {
            return self.effect(operation);
        }
        Effect::Alu(AluEffect::Nothing)
    }

    fn slot_one(&self, b: Bundle) -> Effect
        ensures { result ≡ slot_one (at_start self.now) b }
    {
        match b {
            Bundle::Undecodable => Effect::Alu(AluEffect::Nothing),
            Bundle::One(i) | Bundle::Long(i) | Bundle::Two(i, _) => self.slot_one_effect(i),
        }
    }
}

// What slot one of a bundle does.
pub fn slot_one<'a>(
    registers: &'a [u32],
    predicates: &'a [bool; 8],
    specials: Specials,
    fetch: u32,
    table: &'a [u8],
    b: Bundle,
) -> Effect
    ensures { result ≡ slot_one (start registers.now predicates.now specials fetch table.now) b }
{
    let start = AtStart {
        registers,
        predicates,
        specials,
        fetch,
        table,
    };
    start.slot_one(b)
}

// What slot two of a bundle does; nothing where it has none. It reads registers and predicates alone, of any number.
pub fn slot_two<'a>(registers: &'a [u32], predicates: &'a [bool], b: Bundle) -> AluEffect
    ensures { (specials : Specials) (fetch : ℕ) (table : List ℕ) → result ≡ slot_two (start registers.now predicates.now specials fetch table) b }
{
    match b {
        Bundle::Undecodable => AluEffect::Nothing,
        Bundle::One(_) => AluEffect::Nothing,
        Bundle::Two(_, j) => slot_two_effect(registers, predicates, j),
        Bundle::Long(_) => AluEffect::Nothing,
    }
}
