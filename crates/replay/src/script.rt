// A recorded script: its commands, and the reports that were recorded of them.
ghost use Rattle.std.specs.Prelude.{◌≡◌, ◌↔◌, true, []};
ghost use Rattle.replay.specs.Scripts.{Added, Replayed, Room};

use arrayvec::ArrayVec;
use hex::FromHex;
use host::order_host_run;

// The most commands of a script.
const MOST: usize = 4096;

// How many reports were as recorded, and how many not.
#[derive(Default, Drop)]
pub struct Tally {
    pub scripts: u32,
    pub equal: u32,
    pub other: u32,
    pub unread: u32,
}

impl Tally {
    // Counts the reports that are as recorded, and those that are not.
    fn compare(&mut self, reports: &[u8], recorded: &[u8])
        ensures scripts { self.new.scripts ≡ self.old.scripts }
        ensures unread { self.new.unread ≡ self.old.unread }
    {
        for (report, expected) in reports.chunks_exact(16).zip(recorded.chunks_exact(16)) {
            if report == expected {
                self.equal = self.equal.saturating_add(1);
            } else {
                self.other = self.other.saturating_add(1);
            }
        }
    }
}

// A recorded command with its report.
#[derive(Drop)]
struct Entry {
    command: [u8; 12],
    report: [u8; 16],
}

// Whether no byte is a capital. With no early way out, many bytes are compared at once.
fn is_small(line: &[u8]) -> bool {
    line.iter()
        .fold(true, |small, byte| small & !byte.is_ascii_uppercase())
}

// The entry of a line: 24 small digits, a space and 32 more, each at its place.
fn parsed(line: &[u8]) -> Option<Entry> {
    let (command, rest) = line.split_at_checked(24)?;
    let Some((b' ', report)) = rest.split_first() else {
        return None;
    };
    let command = <[u8; 12]>::from_hex(command).ok()?;
    let report = <[u8; 16]>::from_hex(report).ok()?;
    is_small(line).then_some(Entry { command, report })
}

// The bytes of the commands, twelve of each, and of the reports, sixteen of each: the host's call takes and gives them in a row.
#[derive(Drop)]
pub struct Script {
    commands: ArrayVec<u8, 49152>,
    recorded: ArrayVec<u8, 65536>,
}

impl Script {
    pub fn new() -> Script
        ensures commands { result.commands.items ≡ [] }
        ensures recorded { result.recorded.items ≡ [] }
    {
        Script {
            commands: ArrayVec::new(),
            recorded: ArrayVec::new(),
        }
    }

    fn has_room(&self) -> bool
        ensures { (result ≡ true) ↔ Room self.now }
    {
        self.commands.len() + 12 <= 12 * MOST && self.recorded.len() + 16 <= 16 * MOST
    }

    // One more command with its report, or one more line that was not read.
    pub fn add(&mut self, line: &[u8], tally: &mut Tally)
        ensures { Added self.old tally.old self.new tally.new }
    {
        match parsed(line) {
            Some(entry) if self.has_room() => {
                let _ = self.commands.try_extend_from_slice(&entry.command);
                let _ = self.recorded.try_extend_from_slice(&entry.report);
            }
            _ => tally.unread = tally.unread.saturating_add(1),
        }
    }

    // Replays what was recorded, and begins anew.
    pub fn replay(&mut self, tally: &mut Tally)
        ensures { Replayed self.old tally.old self.new tally.new }
    {
        if self.commands.is_empty() {
            return;
        }
        let mut reports = [255u8; 16 * MOST];
        let _ = order_host_run(&self.commands, &mut reports);
        tally.compare(&reports, &self.recorded);
        tally.scripts = tally.scripts.saturating_add(1);
        self.commands.clear();
        self.recorded.clear();
    }
}
