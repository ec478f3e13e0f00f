// The blocks that a case has in its method cache, among the kept numbers.
ghost use Rattle.std.specs.Prelude.{◌≡◌};
ghost use Rattle.case_notes.specs.Description.{noted};
ghost use Rattle.case_notes.specs.Held.{hold_bases};

use crate::Listed;
use crate::lists::take_list;
use case_file::Reason;
use case_kept::kept::{HOLDS, Kept};

// The bases of a held line from a position on.
pub fn hold_bases(kept: &mut Kept, line: &[u8], list: usize) -> Result<(), Reason>
    ensures { noted result kept.new ≡ hold_bases line.now list kept.old }
{
    kept[HOLDS] = 1;
    take_list(&mut *kept, Listed::Held, line, list)
}
