// Long seeded runs of calls on a set and on the model side by side: equal answers, and the whole order equal after every call.
use crate::model::Model;
use crate::sample::{Sample, is_order};
use crate::tally::Tally;
use draws::Draws;
use layers::last_place::LastPlace;
use layers::limit::Limit;
use layers::loan::Loan;
use order::key::Key;
use order::keys::{RuleNumber, TrainTag};
use order::plain_row::PlainRow;
use order::set::OrderedSet;
use std::alloc::AllocError;
use std::io;

// One of so many keys.
fn some_key<K: Sample>(draws: &mut Draws, keys: u16) -> K {
    K::sample((draws.next() % 65536) as u16 % keys.max(1))
}

// One insertion on both sides: whether they answered alike.
fn insertion<K: Sample, S: OrderedSet<K>>(
    set: &mut S,
    model: &mut Model<K>,
    draws: &mut Draws,
    keys: u16,
) -> Result<bool, AllocError> {
    let key = some_key(draws, keys);
    let draw = draws.next();
    let place = draws.below(set.length().saturating_add(2));
    match draws.below(3) {
        0 => Ok(set.insert_head(key, draw) == model.insert(0, key)?),
        1 => {
            let before = some_key(draws, keys);
            Ok(set.insert_after(before, key, draw) == model.insert_after(before, key)?)
        }
        _ => Ok(set.insert_index(place, key, draw) == model.insert(place as usize, key)?),
    }
}

// One removal on both sides: whether they answered alike.
fn removal<K: Sample, S: OrderedSet<K>>(
    set: &mut S,
    model: &mut Model<K>,
    draws: &mut Draws,
    keys: u16,
) -> bool {
    if draws.below(2) == 0 {
        let key = some_key(draws, keys);
        let place = set.remove_key(key).map(|place| place as usize);
        return place == model.remove(key);
    }
    let place = draws.below(set.length().saturating_add(1));
    set.remove_index(place) == model.remove_at(place as usize)
}

// A run of `steps` calls over `keys` different keys; three of five are insertions.
pub(crate) fn run<K: Sample, S: OrderedSet<K>>(
    rt: &HostRuntime,
    tally: &mut Tally<'_>,
    set: &mut S,
    keys: u16,
    steps: u32,
) -> Result<(), AllocError> {
    let mut model = Model::new(rt.alloc(), set.capacity() as usize);
    let mut draws = Draws::seeded(steps.wrapping_mul(77).wrapping_add(u32::from(keys)) | 1);
    for _ in 0..steps {
        if draws.below(5) < 3 {
            let alike = insertion(set, &mut model, &mut draws, keys)?;
            tally.check("an insertion is answered as by the model", alike);
        } else {
            let alike = removal(set, &mut model, &mut draws, keys);
            tally.check("a removal is answered as by the model", alike);
        }
        let same = is_order(set, &model.keys);
        tally.check("the order is the model's", same);
    }
    Ok(())
}

pub(crate) fn runs(rt: &HostRuntime, tally: &mut Tally<'_>) -> io::Result<()> {
    run::<RuleNumber, _>(
        rt,
        tally,
        &mut PlainRow::new(&mut [RuleNumber::sample(0); 24]),
        40,
        3000,
    )?;
    run::<TrainTag, _>(
        rt,
        tally,
        &mut PlainRow::new(&mut [TrainTag::sample(0); 60]),
        70,
        2000,
    )?;
    let mut cells = [RuleNumber::sample(0); 32];
    let mut row = PlainRow::new(&mut cells);
    let mut pile = Limit::new(LastPlace::new(Loan::new(&mut row)), 12);
    run::<RuleNumber, _>(rt, tally, &mut pile, 20, 3000)?;
    Ok(())
}
