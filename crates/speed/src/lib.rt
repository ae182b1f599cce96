// Work for a stopwatch: the same calls on a row list or on a plain row, driven by one generator. What is answered is a checksum.
#![tactic(auto)]

pub mod kind;
mod turns;
pub mod work;

use kind::Kind;
use links::Row;
use order::keys::RuleNumber;
use order::plain_row::PlainRow;
use skip_list::list::SkipList;
use turns::work_on;
use work::Work;

// The most keys that are measured.
const MOST: usize = 4096;

const NONE: RuleNumber = RuleNumber { value: 0 };

fn over_row_list(work: Work, keys: u16, turns: u32) -> u32 {
    let mut cells = [NONE; MOST];
    let mut rows = [Row::empty(); MOST];
    let mut slots = [0u16; 2 * MOST];
    let mut list = SkipList::new(&mut cells, &mut rows, &mut slots);
    work_on(&mut list, work, keys, turns)
}

fn over_plain_row(work: Work, keys: u16, turns: u32) -> u32 {
    let mut cells = [NONE; MOST];
    let mut row = PlainRow::new(&mut cells);
    work_on(&mut row, work, keys, turns)
}

// Does `turns` turns of a kind of work on a set of so many keys.
pub fn order_speed(kind: Kind, work: Work, keys: u16, turns: u32) -> u32 {
    match kind {
        Kind::RowList => over_row_list(work, keys, turns),
        Kind::PlainRow => over_plain_row(work, keys, turns),
    }
}
