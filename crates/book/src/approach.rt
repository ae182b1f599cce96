// A train's class and the turnout that it comes to: what a rule is asked about.
ghost use Rattle.std.specs.Prelude.{MatchBool};
ghost use Rattle.book.specs.Rules.{Turnout};

#[derive(Clone, Copy, Debug, PartialEq, Eq)]
pub struct Approach {
    pub turnout: u16,
    pub class: u8,
}

// Whether a turnout has such a number.
pub(crate) fn is_turnout(turnout: u16) -> bool
    ensures { MatchBool result (Turnout turnout) (Turnout turnout → ⊥) }
{
    (1..=2000).contains(&turnout)
}
