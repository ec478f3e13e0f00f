// The check of code against a marking of what is private. Marking and Rule are passed on, for those who call it.
#![tactic(auto)]

ghost use Rattle.std.specs.Prelude.{true, ◌≡◌, ◌≤◌, ◌+◌, ◌/◌, length};
ghost use Rattle.settings.specs.Setup.{setup};
ghost use Rattle.single_path.specs.Check.{returned, letter_broken, walk_from, checked};

use answers::Refusal;
use broken_rules::judge;
use fetch::{Fetched, fetch};
pub use marking::Marking;
pub use marking_rules::Rule;
use settings::Config;

// What the check answers, one thing more than a Result can tell: Refused holds the address of the bundle (0 for Limits), Broken, which is
// refusal 9, that address and a rule that the bundle breaks.
#[derive(Clone, Copy)]
pub enum Checked {
    Accepted,
    Refused { refusal: Refusal, address: u32 },
    Broken { address: u32, rule: Rule },
}

// The bundles one after the other, from 0 on, until one fails. At most one begins at each word, so the turns do not run out before
// the code does.
fn walk(code: &[u8], marking: Marking) -> Checked
    requires { length code.now ≤ 65536 }
    ensures { (returned result ≡ walk_from marking code.now (length code.now / 4 + 1) 0) × (letter_broken marking code.now result ≡ true) }
{
    let mut address: u32 = 0;
    for _ in 0..code.len() / 4 + 1 {
        if code.len() <= address as usize {
            return Checked::Accepted;
        }
        match fetch(code, address) {
            Err(refusal) => return Checked::Refused { refusal, address },
            Ok(Fetched { bundle, following }) => {
                let next = following as u32;
                if let Some(rule) = judge(marking, bundle) {
                    return Checked::Broken { address, rule };
                }
                address = next;
            }
        }
    }
    Checked::Accepted
}

// The check: settings and marking are judged first, then the bundles. The lengths of what it does not read are numbers.
pub fn check(
    code: &[u8],
    main: usize,
    local: usize,
    words: usize,
    config: Config,
    marking: Marking,
) -> Checked
    ensures { (returned result ≡ checked (setup code.now config) main local words marking) × (letter_broken marking code.now result ≡ true) }
{
    if config.settings(code, main, local, words).admits() & marking.is_ok() {
        return walk(code, marking);
    }
    Checked::Refused {
        refusal: Refusal::Limits,
        address: 0,
    }
}
