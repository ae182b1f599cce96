// What a line can ask for: values and no closures, since the line that is read decides, and its contract says what it asks.

use order::keys::TrainTag;

// A rule to put in: its number and place, and what it is made of. Its classes are the bytes of their field.
#[derive(Clone, Copy)]
pub struct Adding<'a> {
    pub number: u16,
    pub place: u16,
    pub first: u16,
    pub last: u16,
    pub classes: &'a [u8],
    pub route: u16,
}

#[derive(Clone, Copy)]
pub enum Command<'a> {
    Add(Adding<'a>),
    Drop { number: u16 },
    Move { number: u16, place: u16 },
    Join(TrainTag),
    Send { turnout: u16 },
    List,
}
