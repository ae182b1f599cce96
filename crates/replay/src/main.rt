// Replays recorded commands through the host's call, and counts the reports that are as recorded.
#![tactic(auto)]

mod script;

use arrayvec::ArrayVec;
use script::{Script, Tally};
use std::io;
use std::io::Read;

// The bytes of one line as they come in; a recorded line has 57, and one with 58 is none whatever follows.
type Line = ArrayVec<u8, 58>;

// Takes in the lines that end in a chunk of input: a recorded command, or an empty line that ends a script.
fn take_in(line: &mut Line, script: &mut Script, tally: &mut Tally, chunk: &[u8]) {
    for byte in chunk {
        if *byte != b'\n' {
            let _ = line.try_push(*byte);
            continue;
        }
        if line.is_empty() {
            script.replay(tally);
        } else {
            script.add(line, tally);
        }
        line.clear();
    }
}

fn main(rt: HostRuntime) -> io::Result<()> {
    let mut line = Line::new();
    let mut script = Script::new();
    let mut tally = Tally::default();
    let mut input = rt.stdin();
    // In chunks and not by `lines`: a line may have any length and any bytes, and memory stays flat. A bare `loop` would need a handle to wait.
    for _ in 0..u64::MAX {
        let mut chunk = [0u8; 4096];
        let got = input.read(&mut chunk)?;
        if got == 0 {
            break;
        }
        take_in(&mut line, &mut script, &mut tally, &chunk[..got]);
    }
    script.replay(&mut tally);
    let Tally {
        scripts,
        equal,
        other,
        unread,
    } = tally;
    println!(rt; "{scripts} scripts: {equal} reports equal, {other} not, {unread} lines not read")
}
