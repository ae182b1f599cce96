// The calls on a panel and their answers, as values.
use crate::fault::BookFault;
use crate::rule::Rule;
use order::keys::TrainTag;

// A call on a panel: a value and no closure, since the law of routes speaks of it.
#[derive(Clone, Copy, Debug, PartialEq, Eq)]
pub enum Call {
    Add {
        number: u16,
        rule: Rule,
        place: u32,
        draw: u32,
    },
    Drop {
        number: u16,
    },
    Move {
        number: u16,
        place: u32,
        draw: u32,
    },
    Join {
        tag: TrainTag,
        draw: u32,
    },
    Send {
        turnout: u16,
    },
    Decide {
        turnout: u16,
        class: u8,
    },
}

// What a panel answers to a call that it carries out; number and route are a pair, as the rules have them.
#[derive(Clone, Copy, Debug, PartialEq, Eq)]
pub enum Answer {
    Placed(u32),
    Decided(Option<(u16, u8)>),
    Sent(Option<(TrainTag, u16, u8)>),
}

// A call, and the cell for its answer or the fault that it is refused with.
#[derive(Clone, Copy, Debug, PartialEq, Eq)]
pub struct Turn {
    pub call: Call,
    pub answer: Result<Answer, BookFault>,
}
