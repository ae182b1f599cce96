// Keys made from small numbers, so that one text of checks serves every key type; and refusals by their numbers.
pub mod constant;

use book::fault::BookFault;
use line::fault::LineFault;
use order::fault::SetFault;
use order::key::Key;
use order::keys::{RuleNumber, TrainTag};
use order::set::OrderedSet;
use skip_list::fault::ListFault;

// Three rule numbers.
pub(crate) const A: RuleNumber = RuleNumber { value: 1 };

pub(crate) const B: RuleNumber = RuleNumber { value: 2 };

pub(crate) const C: RuleNumber = RuleNumber { value: 3 };

pub trait Sample: Key {
    fn sample(n: u16) -> Self;
}

impl Sample for RuleNumber {
    fn sample(n: u16) -> RuleNumber {
        RuleNumber { value: n }
    }
}

// Tags that differ now in the class, now in the number.
impl Sample for TrainTag {
    fn sample(n: u16) -> TrainTag {
        TrainTag {
            class: b'A' + (n % 26) as u8,
            number: n / 26,
        }
    }
}

// A fault that is reported under a number.
pub(crate) trait Numbered {
    fn reported(&self) -> u8;
}

impl Numbered for SetFault {
    fn reported(&self) -> u8 {
        self.number()
    }
}

impl Numbered for ListFault {
    fn reported(&self) -> u8 {
        self.number()
    }
}

impl Numbered for BookFault {
    fn reported(&self) -> u8 {
        self.number()
    }
}

impl Numbered for LineFault {
    fn reported(&self) -> u8 {
        self.number()
    }
}

// The number of a refusal, and 0 for what was carried out.
pub(crate) fn refusal<T: Drop, F: Numbered + Drop>(answer: Result<T, F>) -> u8 {
    match answer {
        Ok(_) => 0,
        Err(fault) => fault.reported(),
    }
}

// Whether these keys stand in the set, each at its place, and no others.
pub(crate) fn is_order<K: Key, S: OrderedSet<K>>(set: &mut S, keys: &[K]) -> bool {
    for (place, key) in keys.iter().enumerate() {
        let Ok(at) = u32::try_from(place) else {
            return false;
        };
        if set.key_of(at) != Some(*key) || set.index_of(*key) != Some(at) {
            return false;
        }
    }
    set.length() as usize == keys.len()
}
