// Feeds an input to a desk line by line, and writes each answer as soon as its line is there.
use arrayvec::ArrayVec;
use desk::desk::Desk;
use std::io;
use std::io::{Read, Write};

// The bytes of one line as they come in. A line over 80 bytes is no command whatever follows, so 81 of its bytes are enough.
type Line = ArrayVec<u8, 81>;

// Answers one line.
fn reply(rt: &HostRuntime, desk: &mut Desk<'_, '_, '_, '_>, line: &[u8]) -> io::Result<()> {
    let mut out = [0u8; 1024];
    match desk.answer(line, &mut out) {
        Ok(length) => rt.stdout().write_all(&out[0..length]),
        Err(_) => Ok(()),
    }
}

// Answers the lines that end in a chunk of input, and keeps what has come of the next. It shares no loop with other programs: a
// closure over the desk, the line and the output would be no plainer.
fn take_in(
    rt: &HostRuntime,
    desk: &mut Desk<'_, '_, '_, '_>,
    line: &mut Line,
    chunk: &[u8],
) -> io::Result<()> {
    for byte in chunk {
        if *byte == b'\n' {
            reply(rt, desk, line)?;
            line.clear();
        } else {
            let _ = line.try_push(*byte);
        }
    }
    Ok(())
}

// Answers every line of the input; the last may lack its newline.
pub(crate) fn feed<R: Read>(
    rt: &HostRuntime,
    input: &mut R,
    desk: &mut Desk<'_, '_, '_, '_>,
) -> io::Result<()> {
    let mut line = Line::new();
    // In chunks and not by `lines`: a line may have any length and any bytes, and memory stays flat. A bare `loop` would need a handle to wait.
    for _ in 0..u64::MAX {
        let mut chunk = [0u8; 4096];
        let got = input.read(&mut chunk)?;
        if got == 0 {
            break;
        }
        take_in(rt, desk, &mut line, &chunk[..got])?;
    }
    if line.is_empty() {
        return Ok(());
    }
    reply(rt, desk, &line)
}
