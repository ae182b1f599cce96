// The command that a line says.
ghost use Rattle.std.specs.Prelude.{◌≡◌, Decides};
ghost use Rattle.line.specs.Grammar.{Line, Reads};
ghost use Rattle.line.specs.Lines.{heard, said};

use crate::command::{Adding, Command};
use crate::fault::LineFault;
use crate::field::Reader;
use order::keys::TrainTag;

// The most bytes of a line.
const LONGEST: usize = 80;

fn is_line(bytes: &[u8]) -> bool
    ensures { Decides result (Line bytes.now) }
{
    bytes.len() <= LONGEST && !bytes.contains(&b'\n')
}

// The command of a letter and what is left of the line.
fn command(letter: u8, left: &[u8]) -> Option<Command<'_>>
    ensures { heard result ≡ said letter left.now }
{
    let mut reader = Reader::new(left);
    let command = match char::from(letter) {
        'A' => Command::Add(Adding {
            number: reader.number()?,
            place: reader.number()?,
            first: reader.number()?,
            last: reader.number()?,
            classes: reader.capitals()?,
            route: reader.number()?,
        }),
        'D' => Command::Drop {
            number: reader.number()?,
        },
        'M' => Command::Move {
            number: reader.number()?,
            place: reader.number()?,
        },
        'T' => Command::Join(TrainTag {
            class: reader.mark()?,
            number: reader.number()?,
        }),
        'S' => Command::Send {
            turnout: reader.number()?,
        },
        'L' => Command::List,
        _ => return None,
    };
    reader.left.is_empty().then_some(command)
}

// The command that a line says, or BadLine where it says none.
pub fn parse(line: &[u8]) -> Result<Command<'_>, LineFault>
    ensures { Reads line.now result }
{
    if !is_line(line) {
        return Err(LineFault::BadLine);
    }
    let [letter, left @ ..] = line else {
        return Err(LineFault::BadLine);
    };
    command(*letter, left).ok_or(LineFault::BadLine)
}
