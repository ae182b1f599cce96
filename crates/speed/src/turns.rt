// The turns of each work, on any ordered set of rule numbers.
use crate::work::Work;
use draws::Draws;
use layers::above::{push, splice};
use layers::cursor::Cursor;
use order::key::Key;
use order::keys::RuleNumber;
use order::set::OrderedSet;

// Other programs do the same work from the same seed.
const SEED: u32 = 0x1234_5679;

fn key(value: u16) -> RuleNumber {
    RuleNumber { value }
}

// A random one of the keys 0 to `keys` - 1.
fn some_key(draws: &mut Draws, keys: u16) -> RuleNumber {
    key(draws.below(u32::from(keys)) as u16)
}

// Puts in the keys 0 to `keys` - 1, each at a random place.
fn fill<S: OrderedSet<RuleNumber>>(set: &mut S, draws: &mut Draws, keys: u16) {
    for value in 0..keys {
        let place = draws.below(u32::from(value) + 1);
        let draw = draws.next();
        let _ = set.insert_index(place, key(value), draw);
    }
}

fn value_or_none(found: Option<RuleNumber>) -> u32 {
    found.map_or(0, |found| u32::from(found.value))
}

// Takes a key out, and puts it in again at a random place.
fn remove_insert<S: OrderedSet<RuleNumber>>(set: &mut S, draws: &mut Draws, keys: u16) -> u32 {
    let moved = some_key(draws, keys);
    let old = set.remove_key(moved).unwrap_or(0);
    let place = draws.below(u32::from(keys));
    let draw = draws.next();
    let _ = set.insert_index(place, moved, draw);
    old
}

// Takes a key out, and puts it in again at the end.
fn remove_push<S: OrderedSet<RuleNumber>>(set: &mut S, draws: &mut Draws, keys: u16) -> u32 {
    let moved = some_key(draws, keys);
    let old = set.remove_key(moved).unwrap_or(0);
    let draw = draws.next();
    let _ = push(set, moved, draw);
    old
}

// Moves the first key to the end.
fn front_to_end<S: OrderedSet<RuleNumber>>(set: &mut S, draws: &mut Draws) -> u32 {
    let Some(first) = set.remove_index(0) else {
        return 0;
    };
    let draw = draws.next();
    let _ = push(set, first, draw);
    u32::from(first.value)
}

// Takes the first sixteen out, and splices them in at a random place of the rest.
fn splice_sixteen<S: OrderedSet<RuleNumber>>(set: &mut S, draws: &mut Draws) -> u32 {
    let mut taken = [key(0); 16];
    let mut fresh = [0u32; 16];
    for (cell, draw) in taken.iter_mut().zip(fresh.iter_mut()) {
        if let Some(first) = set.remove_index(0) {
            *cell = first;
        }
        *draw = draws.next();
    }
    let place = draws.below(set.length().saturating_add(1));
    splice(set, place, &taken, &fresh).unwrap_or(0)
}

// Gives every key once.
fn walk<S: OrderedSet<RuleNumber>>(set: &mut S, keys: u16) -> u32 {
    let mut sum = 0u32;
    let mut cursor = Cursor::first(set);
    for _ in 0..keys {
        sum = sum.wrapping_add(value_or_none(cursor.step(set)));
    }
    sum
}

// Fills the set, does so many turns, and answers the sum of what they gave.
fn drive<S: OrderedSet<RuleNumber>, F: FnMut(&mut S, &mut Draws) -> u32>(
    set: &mut S,
    keys: u16,
    turns: u32,
    mut turn: F,
) -> u32
    requires { F.IsAlwaysCallable turn }
{
    let mut draws = Draws::seeded(SEED);
    fill(set, &mut draws, keys);
    let mut sum = 0u32;
    for _ in 0..turns {
        sum = sum.wrapping_add(turn(set, &mut draws));
    }
    sum
}

pub(crate) fn work_on<S: OrderedSet<RuleNumber>>(
    set: &mut S,
    work: Work,
    keys: u16,
    turns: u32,
) -> u32 {
    match work {
        Work::Fill => drive(set, keys, turns, |_, _| 0),
        Work::IndexOf => drive(set, keys, turns, |set, draws| {
            set.index_of(some_key(draws, keys)).unwrap_or(0)
        }),
        Work::KeyOf => drive(set, keys, turns, |set, draws| {
            value_or_none(set.key_of(draws.below(u32::from(keys))))
        }),
        Work::RemoveInsert => drive(set, keys, turns, |set, draws| {
            remove_insert(set, draws, keys)
        }),
        Work::RemovePush => drive(set, keys, turns, |set, draws| remove_push(set, draws, keys)),
        Work::FrontToEnd => drive(set, keys, turns, |set, draws| front_to_end(set, draws)),
        Work::SpliceSixteen => drive(set, keys, turns, |set, draws| splice_sixteen(set, draws)),
        Work::Walk => drive(set, keys, turns, |set, _| walk(set, keys)),
    }
}
