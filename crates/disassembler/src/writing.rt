// The text of a bundle, put on a page.
#![tactic(auto, using(text::specs::PageLaws::texts), unfolding(crate::specs::Text::shown_text, crate::specs::Text::guard_text, crate::specs::Text::bundle_text))]

ghost use Rattle.std.specs.Prelude.{◌≡◌, false, cond, eqb};
ghost use Rattle.text.specs.Page.{Puts};
ghost use Rattle.assembly.specs.Forms.{letter as letter_of};
ghost use Rattle.assembly.specs.Operands.{operand_text};
ghost use Rattle.disassembler.specs.Text.{shown_text, guard_text, slot_text, bundle_text};

use crate::Shown;
use crate::showing::show;
use assembly::Operand;
use assembly::operand_text::{put_operand, put_predicate};
use assembly::table::{letter, put_name};
use isa::{AluInstruction, Bundle, Instruction, Operation, PredicateOperand};
use text::page::Page;

// An operand of a form.
fn put_nth(page: &mut Page, form: u32, nth: u32, o: Operand)
    ensures { Puts page.old page.new (operand_text (letter_of form nth) o) }
{
    let kind = letter(form, nth);
    put_operand(page, kind, o);
}

// A name with its operands.
fn put_shown(page: &mut Page, s: Shown)
    ensures { Puts page.old page.new (shown_text s) }
{
    let m = s.mnemonic;
    let form = m.form;
    put_name(page, m);
    put_nth(page, form, 0, s.a);
    put_nth(page, form, 1, s.b);
    put_nth(page, form, 2, s.c);
    put_nth(page, form, 3, s.d);
}

// Whether a guard is p0, which is not written.
fn is_unguarded(g: PredicateOperand) -> bool
    ensures { result ≡ cond g.negated false (eqb g.predicate 0) }
{
    if g.negated {
        return false;
    }
    g.predicate == 0
}

fn put_guard(page: &mut Page, g: PredicateOperand)
    ensures { Puts page.old page.new (guard_text g) }
{
    if !is_unguarded(g) {
        put_predicate(page, g.negated, g.predicate);
        page.put_byte(b' ');
    }
}

fn put_slot(page: &mut Page, g: PredicateOperand, o: Operation)
    ensures { Puts page.old page.new (slot_text g o) }
{
    put_guard(page, g);
    put_shown(page, show(o));
}

fn put_instruction(page: &mut Page, i: Instruction)
    ensures { Puts page.old page.new (slot_text i.guard i.operation) }
{
    let g = i.guard;
    let o = i.operation;
    put_slot(page, g, o);
}

fn put_two(page: &mut Page, i: Instruction, j: AluInstruction)
    ensures { Puts page.old page.new (bundle_text (Bundle.Two i j)) }
{
    put_instruction(page, i);
    page.put(b" ; ");
    let g = j.guard;
    let a = j.operation;
    put_slot(page, g, Operation::Alu(a));
}

// The text of a bundle. One that cannot be decoded has none.
pub fn put_bundle(page: &mut Page, b: Bundle)
    ensures { Puts page.old page.new (bundle_text b) }
{
    match b {
        Bundle::Undecodable => {}
        Bundle::One(i) | Bundle::Long(i) => put_instruction(page, i),
        Bundle::Two(i, j) => put_two(page, i, j),
    }
}
