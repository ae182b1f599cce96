// What the command line turns down itself, or carries up from the book.
ghost use Rattle.std.specs.Prelude.{◌≡◌};
ghost use Rattle.line.specs.Faults.{line_number, line_word};
ghost use Rattle.line.specs.declared.fault.LineFault.TheVariants.{Book};

use book::fault::BookFault;

#[derive(Clone, Copy, Debug, PartialEq, Eq)]
pub enum LineFault {
    Book(BookFault),
    BadLine,
    SmallOut,
}

impl LineFault {
    // The number under which it is reported: the rules give each fault its own, so each type has its table.
    pub fn number(&self) -> u8
        ensures { result ≡ line_number self.now }
    {
        match *self {
            LineFault::Book(fault) => fault.number(),
            LineFault::BadLine => 20,
            LineFault::SmallOut => 21,
        }
    }

    // The word of the layer that turned it down.
    pub fn word(&self) -> &'static str
        ensures { result.now ≡ line_word self.now }
    {
        match *self {
            LineFault::Book(fault) => fault.word(),
            LineFault::BadLine | LineFault::SmallOut => "line",
        }
    }
}

// A refusal of the book climbs with its number and word.
impl From<BookFault> for LineFault {
    ghost from_gives = { λ refusal r. r ≡ Book refusal };

    fn from(refusal: BookFault) -> LineFault {
        LineFault::Book(refusal)
    }
}
