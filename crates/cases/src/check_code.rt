// The check of a case's code under its marking.
use crate::Case;
use crate::kept_state::config_of;
use answers::Refusal;
use case_kept::extent::extents_of;
use case_notes::marked::marking_of;
use case_report::form::say;
use single_path::{Checked, Rule};
use text::page::Page;

fn letter(r: Rule) -> u8 {
    match r {
        Rule::A => b'A',
        Rule::B => b'B',
        Rule::C => b'C',
        Rule::D => b'D',
        Rule::E => b'E',
    }
}

// Refusal 1 is one of the marking, and has no address.
fn put_refused(page: &mut Page, refusal: Refusal, address: u32) {
    if refusal == Refusal::Limits {
        page.put(b"check refused 1\n");
    } else {
        say(
            page,
            b"check refused % at %\n",
            &[refusal.number() as u64, address as u64],
        );
    }
}

fn put_broken(page: &mut Page, address: u32, letter: u8) {
    say(
        page,
        b"check refused 9 at % rule $\n",
        &[address as u64, letter as u64],
    );
}

fn put_checked(page: &mut Page, c: Checked) {
    match c {
        Checked::Accepted => page.put(b"check accepted\n"),
        Checked::Refused { refusal, address } => put_refused(page, refusal, address),
        Checked::Broken { address, rule } => put_broken(page, address, letter(rule)),
    }
}

impl Case {
    pub(crate) fn check(&self, page: &mut Page) {
        let kept = &self.kept;
        let e = extents_of(kept);
        let n = e.code.min(65536);
        let config = config_of(e, kept);
        let c = single_path::check(
            &self.code[0..n],
            e.main,
            e.local,
            e.words,
            config,
            marking_of(kept),
        );
        put_checked(page, c);
    }
}
