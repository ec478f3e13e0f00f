// What stands behind the numbers that an entry takes and gives.
ghost use Rattle.std.specs.Prelude.{◌≡◌};
ghost use Rattle.resume.specs.Resumed.{returned};
ghost use Rattle.entries.specs.Entries.{config_of, answer_number};

use method_cache::Method;
use resume::Reply;
use settings::Config;

pub fn config_of(lo: u32, hi: u32, on: u32, blocks: u32, bytes: u32) -> Config
    ensures { result ≡ config_of lo hi on blocks bytes }
{
    let method = Method {
        on: on != 0,
        blocks,
        bytes,
    };
    Config { lo, hi, method }
}

pub(crate) fn number_of(a: Reply) -> u32
    ensures { result ≡ answer_number (returned a) }
{
    match a {
        Reply::Done => 0,
        Reply::Ended => 256,
        Reply::Spent => 257,
        Reply::Refused(refusal) => refusal.number(),
    }
}
