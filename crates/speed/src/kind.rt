// What the work is done on.
ghost use Rattle.std.specs.Prelude.{◌≡◌};
ghost use Rattle.speed.specs.Numbers.{kind_of};

#[derive(Clone, Copy, Debug, PartialEq, Eq)]
pub enum Kind {
    RowList,
    PlainRow,
}

// A plain row where the number is not 0.
impl From<u32> for Kind {
    ghost from_gives = { λ number kind. kind ≡ kind_of number };

    fn from(number: u32) -> Kind {
        match number {
            0 => Kind::RowList,
            _ => Kind::PlainRow,
        }
    }
}
