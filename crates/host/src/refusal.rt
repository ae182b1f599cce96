// Why a command is not carried out: the list turns it down, or it is none.
ghost use Rattle.std.specs.Prelude.{◌≡◌};
ghost use Rattle.order.specs.declared.fault.SetFault.TheVariants.{Full};
ghost use Rattle.host.specs.declared.refusal.Refusal.TheVariants.{List, Set};

use arrayvec::CapacityError;
use order::fault::SetFault;
use skip_list::fault::ListFault;

#[derive(Clone, Copy, Debug, PartialEq, Eq)]
pub enum Refusal {
    Set(SetFault),
    List(ListFault),
    Unknown,
    CutOff,
}

impl From<SetFault> for Refusal {
    ghost from_gives = { λ fault r. r ≡ Set fault };

    fn from(fault: SetFault) -> Refusal {
        Refusal::Set(fault)
    }
}

impl From<ListFault> for Refusal {
    ghost from_gives = { λ fault r. r ≡ List fault };

    fn from(fault: ListFault) -> Refusal {
        Refusal::List(fault)
    }
}

// No more can wait: that is told as a full set is.
impl<T: Drop> From<CapacityError<T>> for Refusal {
    ghost from_gives = { λ _ r. r ≡ Set Full };

    fn from(_full: CapacityError<T>) -> Refusal {
        Refusal::Set(SetFault::Full)
    }
}
