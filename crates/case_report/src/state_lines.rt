// The lines on a state, which is among the kept numbers.
ghost use Rattle.std.specs.Prelude.{◌≡◌, ◌+◌, ◌≤◌, length, take, drop};
ghost use Rattle.text.specs.Page.{Puts};
ghost use Rattle.case_kept.specs.Indices.{HELD};
ghost use Rattle.case_report.specs.Form.{filled};
ghost use Rattle.case_report.specs.StateLines.{transfer_line, load_line, products_line, held_bases, held_line, replay_line, waiting_text, state_text};

use crate::form::say_kept;
use case_kept::kept::{
    ACTIVE, BLOCK, BR, CALL, FETCH, HELD, HOLDS, Kept, LOAD, LOADED, METHOD, PLACE, PREDICATES,
    PRODUCT, PRODUCTS, REGISTERS, REPLAYS, SPECIALS, TARGET, TRANSFER, XRET, is_set, number,
};
use text::page::Page;

#[tactic(auto, unfolding(crate::specs::StateLines::transfer_line))]
fn put_transfer(page: &mut Page, kept: &Kept)
    ensures { Puts page.old page.new (transfer_line kept.now) }
{
    let kind = number(kept, TRANSFER);
    match kind {
        BR => say_kept(page, b"transfer br % %\n", kept, TARGET),
        CALL => say_kept(page, b"transfer call % %\n", kept, TARGET),
        BLOCK => say_kept(page, b"transfer block % % %\n", kept, TARGET),
        XRET => say_kept(page, b"transfer xret % % %\n", kept, TARGET),
        _ => page.put(b"transfer none\n"),
    }
}

#[tactic(auto, unfolding(crate::specs::StateLines::load_line))]
fn put_load(page: &mut Page, kept: &Kept)
    ensures { Puts page.old page.new (load_line kept.now) }
{
    if is_set(kept, LOAD) {
        say_kept(page, b"load % #\n", kept, LOADED);
    } else {
        page.put(b"load none\n");
    }
}

#[tactic(auto, using(text::specs::PageLaws::texts), unfolding(crate::specs::StateLines::products_line))]
fn put_products(page: &mut Page, kept: &Kept)
    ensures { Puts page.old page.new (products_line kept.now) }
{
    let count = number(kept, PRODUCTS);
    match count {
        0 => {}
        1 => say_kept(page, b"products % # #\n", kept, PRODUCT),
        _ => say_kept(page, b"products % # # % # #\n", kept, PRODUCT),
    }
}

// A form with the bases of held blocks, cut behind n of its bytes.
fn put_cut(page: &mut Page, form: &[u8], n: usize, kept: &Kept)
    requires { n ≤ length form.now }
    ensures { Puts page.old page.new (filled (take n form.now) (drop (HELD + 1) kept.now)) }
{
    say_kept(page, &form[0..n], kept, HELD + 1);
}

#[tactic(auto, using(text::specs::PageLaws::texts), unfolding(crate::specs::StateLines::held_bases))]
fn put_bases(page: &mut Page, kept: &Kept, n: usize)
    requires { n ≤ 16 }
    ensures { Puts page.old page.new (held_bases kept.now n) }
{
    if n == 0 {
        page.put(b"held none\n");
        return;
    }
    put_cut(
        page,
        b"held % % % % % % % % % % % % % % % %",
        4 + 2 * n,
        kept,
    );
    page.put_byte(b'\n');
}

// A case that says nothing of the method cache has no line on it.
#[tactic(auto, using(text::specs::PageLaws::texts), unfolding(crate::specs::StateLines::held_line))]
fn put_held(page: &mut Page, kept: &Kept)
    ensures { Puts page.old page.new (held_line kept.now) }
{
    if is_set(kept, METHOD) | is_set(kept, HOLDS) {
        put_bases(page, kept, (number(kept, HELD) as usize).min(16));
    }
}

// An active handler is told in every case, and that there is none where a line says something of the replay.
#[tactic(auto, using(text::specs::PageLaws::texts), unfolding(crate::specs::StateLines::replay_line))]
fn put_replay(page: &mut Page, kept: &Kept)
    ensures { Puts page.old page.new (replay_line kept.now) }
{
    if is_set(kept, ACTIVE) {
        say_kept(page, b"replay active place % done %\n", kept, PLACE);
    } else if is_set(kept, REPLAYS) {
        say_kept(page, b"replay idle place % done %\n", kept, PLACE);
    }
}

// What waits, what is under way, what is held, and where the replay is.
#[tactic(auto, using(text::specs::PageLaws::texts), unfolding(crate::specs::StateLines::waiting_text))]
fn put_waiting(page: &mut Page, kept: &Kept)
    ensures { Puts page.old page.new (waiting_text kept.now) }
{
    put_transfer(page, kept);
    put_load(page, kept);
    put_products(page, kept);
    put_held(page, kept);
    put_replay(page, kept);
}

// The state lines, all of them.
pub fn put_state(page: &mut Page, kept: &Kept)
    ensures { Puts page.old page.new (state_text kept.now) }
{
    say_kept(page, b"fetch % base %\n", kept, FETCH);
    say_kept(
        page,
        b"regs # # # # # # # # # # # # # # # # # # # # # # # # # # # # # # # #\n",
        kept,
        REGISTERS,
    );
    say_kept(page, b"preds % % % % % % % %\n", kept, PREDICATES);
    say_kept(
        page,
        b"specials sl # sh # ss # st # srb # sro # sxb # sxo #\n",
        kept,
        SPECIALS,
    );
    put_waiting(page, kept);
}
