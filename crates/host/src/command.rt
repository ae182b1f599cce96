// A command, and how it is read from its twelve bytes: a value and no closure, since the bytes decide.
ghost use Rattle.host.specs.Commands.{Reads};

use crate::refusal::Refusal;
use order::keys::RuleNumber;

// The number of bytes of a command.
pub const SIZE: usize = 12;

#[derive(Clone, Copy)]
pub enum Command {
    InsertHead {
        key: RuleNumber,
        draw: u32,
    },
    InsertAfter {
        before: RuleNumber,
        key: RuleNumber,
        draw: u32,
    },
    InsertIndex {
        place: u32,
        key: RuleNumber,
        draw: u32,
    },
    Push {
        key: RuleNumber,
        draw: u32,
    },
    HoldKey {
        key: RuleNumber,
    },
    HoldDraw {
        draw: u32,
    },
    Splice {
        place: u32,
    },
    RemoveKey {
        key: RuleNumber,
    },
    RemoveIndex {
        place: u32,
    },
    IndexOf {
        key: RuleNumber,
    },
    KeyOf {
        place: u32,
    },
    Length,
    Capacity,
    Level {
        key: RuleNumber,
    },
    Links {
        key: RuleNumber,
        level: u8,
    },
    HeadLinks {
        level: u8,
    },
}

// Reads the bytes of a command, of which there may be too few.
pub fn read(bytes: &[u8]) -> Result<Command, Refusal>
    ensures { Reads bytes.now result }
{
    let Some(&whole) = bytes.first_chunk::<SIZE>() else {
        return Err(Refusal::CutOff);
    };
    let [letter, level, k0, k1, p0, p1, p2, p3, d0, d1, d2, d3] = whole;
    let key = RuleNumber {
        value: u16::from_le_bytes([k0, k1]),
    };
    let before = RuleNumber {
        value: u16::from_le_bytes([p0, p1]),
    };
    let place = u32::from_le_bytes([p0, p1, p2, p3]);
    let draw = u32::from_le_bytes([d0, d1, d2, d3]);
    match letter {
        b'H' => Ok(Command::InsertHead { key, draw }),
        b'A' => Ok(Command::InsertAfter { before, key, draw }),
        b'I' => Ok(Command::InsertIndex { place, key, draw }),
        b'P' => Ok(Command::Push { key, draw }),
        b'Q' => Ok(Command::HoldKey { key }),
        b'W' => Ok(Command::HoldDraw { draw }),
        b'S' => Ok(Command::Splice { place }),
        b'R' => Ok(Command::RemoveKey { key }),
        b'X' => Ok(Command::RemoveIndex { place }),
        b'i' => Ok(Command::IndexOf { key }),
        b'k' => Ok(Command::KeyOf { place }),
        b'n' => Ok(Command::Length),
        b'c' => Ok(Command::Capacity),
        b'v' => Ok(Command::Level { key }),
        b'l' => Ok(Command::Links { key, level }),
        b'h' => Ok(Command::HeadLinks { level }),
        _ => Err(Refusal::Unknown),
    }
}
