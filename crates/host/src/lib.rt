// The host's call: a new row list of 256 rule numbers is driven by the commands of a byte slice, and each command is answered by a report.
#![tactic(auto)]

ghost use Rattle.std.specs.Prelude.{◌≡◌, ◌*◌, length};
ghost use Rattle.host.specs.Runs.{Answers, ServedBytes};
ghost use Rattle.host.specs.Bytes.{report_count};

pub mod carry;
pub mod command;
pub mod refusal;
pub mod reply;
pub mod report;

use arrayvec::ArrayVec;
use carry::{Pending, carry_out};
use command::read;
use links::Row;
use order::keys::RuleNumber;
use refusal::Refusal;
use reply::Reply;
use report::Report;
use skip_list::list::SkipList;

// The rows of the list.
const ROWS: usize = 256;

// Answers the bytes of one command.
fn answer(
    list: &mut SkipList<'_, RuleNumber>,
    pending: &mut Pending,
    bytes: &[u8],
) -> Result<Reply, Refusal>
    ensures { ServedBytes list.old.lent pending.old bytes.now result list.new.lent pending.new }
{
    let command = read(bytes)?;
    carry_out(list, pending, command)
}

// Carries out the commands on a new list, and writes their reports at the front of `out`; answers how many bytes they are.
pub fn order_host_run(commands: &[u8], out: &mut [u8]) -> usize
    ensures length { result ≡ 16 * report_count (length commands.now) (length out.old) }
    ensures answers { Answers commands.now out.old result out.new }
{
    let mut keys = [RuleNumber { value: 0 }; ROWS];
    let mut rows = [Row::empty(); ROWS];
    let mut slots = [0u16; 2 * ROWS];
    let mut list = SkipList::new(&mut keys, &mut rows, &mut slots);
    let mut pending = Pending {
        keys: ArrayVec::new(),
        draws: ArrayVec::new(),
    };
    let mut written = 0;
    // Tried with `chunks_exact_mut`: a proof knows no byte of a slice lent out in chunks, so each report goes in at its place.
    for command in commands.chunks(12).take(out.len() / 16) {
        let told = answer(&mut list, &mut pending, command);
        let report = Report::from(told).bytes();
        let part = &mut out[written..written + 16];
        part.copy_from_slice(&report);
        written += 16;
    }
    written
}
