// What an ordered set turns down, each fault under its number.
ghost use Rattle.std.specs.Prelude.{◌≡◌};
ghost use Rattle.order.specs.Faults.{set_number};

#[derive(Clone, Copy, Debug, PartialEq, Eq)]
pub enum SetFault {
    Present,
    NoPredecessor,
    PastEnd,
    Full,
    Uneven,
}

impl SetFault {
    // The number under which it is reported: the rules give each fault its own, so each type has its table.
    pub fn number(&self) -> u8
        ensures { result ≡ set_number self.now }
    {
        match *self {
            SetFault::Present => 1,
            SetFault::NoPredecessor => 2,
            SetFault::PastEnd => 3,
            SetFault::Full => 4,
            SetFault::Uneven => 5,
        }
    }
}
