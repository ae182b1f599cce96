// What is done in each turn.
ghost use Rattle.std.specs.Prelude.{◌≡◌};
ghost use Rattle.speed.specs.Numbers.{work_of};

#[derive(Clone, Copy, Debug, PartialEq, Eq)]
pub enum Work {
    Fill,
    IndexOf,
    KeyOf,
    RemoveInsert,
    RemovePush,
    FrontToEnd,
    SpliceSixteen,
    Walk,
}

// The work of a number; what has none is the filling alone.
impl From<u32> for Work {
    ghost from_gives = { λ number work. work ≡ work_of number };

    fn from(number: u32) -> Work {
        match number {
            1 => Work::IndexOf,
            2 => Work::KeyOf,
            3 => Work::RemoveInsert,
            4 => Work::RemovePush,
            5 => Work::FrontToEnd,
            6 => Work::SpliceSixteen,
            7 => Work::Walk,
            _ => Work::Fill,
        }
    }
}
