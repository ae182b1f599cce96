// The host's call with C linkage, as a static library.
#![tactic(auto)]

ghost use Rattle.std.specs.Prelude.{◌≡◌, ◌*◌, length};
ghost use Rattle.host.specs.Runs.{Answers};
ghost use Rattle.host.specs.Bytes.{report_count};

// Carries out the commands on a new list, and writes their reports at the front of `out`; answers how many bytes they are.
#[unsafe(no_mangle)]
pub extern "C" fn order_host_run(commands: &[u8], out: &mut [u8]) -> usize
    ensures length { result ≡ 16 * report_count (length commands.now) (length out.old) }
    ensures answers { Answers commands.now out.old result out.new }
{
    host::order_host_run(commands, out)
}
