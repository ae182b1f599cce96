// What a book or a panel turns down, each fault under its number and its word.
ghost use Rattle.std.specs.Prelude.{◌≡◌};
ghost use Rattle.book.specs.Faults.{fault_number, fault_word};
ghost use Rattle.book.specs.declared.fault.BookFault.TheVariants.{Rules, Yard};

use order::fault::SetFault;

// A set's fault is carried up with its number unchanged, under the word of its set.
#[derive(Clone, Copy, Debug, PartialEq, Eq)]
pub enum BookFault {
    BadRule,
    BadNumber,
    NoRule,
    BadTurnout,
    BadTrain,
    NoTrain,
    Rules(SetFault),
    Yard(SetFault),
}

impl BookFault {
    // The number under which it is reported: the rules give each fault its own, so each type has its table.
    pub fn number(&self) -> u8
        ensures { result ≡ fault_number self.now }
    {
        match *self {
            BookFault::BadRule => 10,
            BookFault::BadNumber => 11,
            BookFault::NoRule => 12,
            BookFault::BadTurnout => 13,
            BookFault::BadTrain => 14,
            BookFault::NoTrain => 15,
            BookFault::Rules(fault) => fault.number(),
            BookFault::Yard(fault) => fault.number(),
        }
    }

    // The word of the layer that turned it down.
    pub fn word(&self) -> &'static str
        ensures { result.now ≡ fault_word self.now }
    {
        match *self {
            BookFault::Rules(_) => "rules",
            BookFault::Yard(_) => "yard",
            _ => "book",
        }
    }
}

impl From<SetFault> for BookFault {
    ghost from_gives = { λ fault r. r ≡ Rules fault };

    fn from(fault: SetFault) -> BookFault {
        BookFault::Rules(fault)
    }
}

// A fault of the yard's set, on its way up.
#[derive(Clone, Copy, Debug, PartialEq, Eq)]
pub struct YardFault {
    pub fault: SetFault,
}

impl From<SetFault> for YardFault {
    ghost from_gives = { λ fault r. r.fault ≡ fault };

    fn from(fault: SetFault) -> YardFault {
        YardFault { fault }
    }
}

impl From<YardFault> for BookFault {
    ghost from_gives = { λ yard r. r ≡ Yard yard.fault };

    fn from(yard: YardFault) -> BookFault {
        BookFault::Yard(yard.fault)
    }
}
