// What a row list turns down, beside what every ordered set does, each fault under its number.
ghost use Rattle.std.specs.Prelude.{◌≡◌};
ghost use Rattle.skip_list.specs.Faults.{list_number};

#[derive(Clone, Copy, Debug, PartialEq, Eq)]
pub enum ListFault {
    BadMemory,
    NoKey,
    NoLevel,
}

impl ListFault {
    // The number under which it is reported: the rules give each fault its own, so each type has its table.
    pub fn number(&self) -> u8
        ensures { result ≡ list_number self.now }
    {
        match *self {
            ListFault::BadMemory => 6,
            ListFault::NoKey => 7,
            ListFault::NoLevel => 8,
        }
    }
}
