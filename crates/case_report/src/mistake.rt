// The last line of a report whose file has a mistake.
#![tactic(auto, using(text::specs::PageLaws::texts), unfolding(crate::specs::Mistake::error_text))]

ghost use Rattle.std.specs.Prelude.{◌≡◌};
ghost use Rattle.text.specs.Page.{Puts};
ghost use Rattle.case_kept.specs.Kept.{put as put_number};
ghost use Rattle.case_kept.specs.Indices.{PHASE, STOPPED};
ghost use Rattle.case_report.specs.Mistake.{error_text};

use crate::form::say;
use crate::reasons::put_reason;
use case_file::Reason;
use case_kept::kept::{Kept, PHASE, STOPPED};
use text::page::Page;

// Line n is a mistake.
fn put_mistake(page: &mut Page, n: u64, r: Reason)
    ensures { Puts page.old page.new (error_text n r) }
{
    say(page, b"error line %: ", &[n]);
    put_reason(page, r);
    page.put_byte(b'\n');
}

// The report ends with what is wrong with a line.
pub fn fail(page: &mut Page, kept: &mut Kept, line: u64, r: Reason)
    ensures { Puts page.old page.new (error_text line r) × (kept.new ≡ put_number kept.old PHASE STOPPED) }
{
    kept[PHASE] = STOPPED;
    put_mistake(page, line, r);
}
