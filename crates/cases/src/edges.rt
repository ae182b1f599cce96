// Every refusal of an ordered set at its edge: one short, exact, one past. Each set comes empty, with room for three keys.
use crate::sample::{Sample, refusal};
use crate::tally::Tally;
use order::key::Key;
use order::keys::{RuleNumber, TrainTag};
use order::plain_row::PlainRow;
use order::set::OrderedSet;

fn empty<K: Sample, S: OrderedSet<K>>(tally: &mut Tally<'_>, set: &mut S) {
    tally.check("an empty set has length 0", set.length() == 0);
    tally.check("room for three", set.capacity() == 3);
    tally.check("no key at place 0", set.key_of(0).is_none());
    tally.check(
        "an absent key has no place",
        set.index_of(K::sample(1)).is_none(),
    );
    tally.check(
        "an absent key is not removed",
        set.remove_key(K::sample(1)).is_none(),
    );
    tally.check(
        "nothing is removed at place 0",
        set.remove_index(0).is_none(),
    );
    tally.check(
        "place 1 is past the end of an empty order",
        refusal(set.insert_index(1, K::sample(1), 0)) == 3,
    );
    tally.check(
        "no predecessor",
        refusal(set.insert_after(K::sample(2), K::sample(1), 0)) == 2,
    );
    tally.check(
        "no key is its own predecessor",
        refusal(set.insert_after(K::sample(1), K::sample(1), 0)) == 2,
    );
    tally.check("still empty", set.length() == 0);
}

// Fills the set with 1, 2, 3 in this order.
fn filling<K: Sample, S: OrderedSet<K>>(tally: &mut Tally<'_>, set: &mut S) {
    tally.check("a head", refusal(set.insert_head(K::sample(1), 7)) == 0);
    tally.check(
        "a present key is refused at the head",
        refusal(set.insert_head(K::sample(1), 7)) == 1,
    );
    tally.check(
        "after the head",
        refusal(set.insert_after(K::sample(1), K::sample(2), 0)) == 0,
    );
    tally.check(
        "present before a missing predecessor",
        refusal(set.insert_after(K::sample(9), K::sample(2), 0)) == 1,
    );
    tally.check(
        "present before past the end",
        refusal(set.insert_index(9, K::sample(2), 0)) == 1,
    );
    tally.check(
        "at length 2, place 3 is past the end",
        refusal(set.insert_index(3, K::sample(3), 0)) == 3,
    );
    tally.check(
        "the greatest place is past the end",
        refusal(set.insert_index(u32::MAX, K::sample(3), 0)) == 3,
    );
    tally.check(
        "at length 2, place 2 is accepted",
        refusal(set.insert_index(2, K::sample(3), u32::MAX)) == 0,
    );
    tally.check("1 stands first", set.key_of(0) == Some(K::sample(1)));
    tally.check("2 stands second", set.key_of(1) == Some(K::sample(2)));
    tally.check("3 stands third", set.key_of(2) == Some(K::sample(3)));
    tally.check("none stands fourth", set.key_of(3).is_none());
}

fn full<K: Sample, S: OrderedSet<K>>(tally: &mut Tally<'_>, set: &mut S) {
    tally.check("length 3", set.length() == 3);
    tally.check(
        "a present key on a full set",
        refusal(set.insert_index(0, K::sample(2), 0)) == 1,
    );
    tally.check(
        "an absent key on a full set",
        refusal(set.insert_index(0, K::sample(4), 0)) == 4,
    );
    tally.check(
        "past the end before full",
        refusal(set.insert_index(4, K::sample(4), 0)) == 3,
    );
    tally.check(
        "full at the end",
        refusal(set.insert_index(3, K::sample(4), 0)) == 4,
    );
    tally.check(
        "full at the head",
        refusal(set.insert_head(K::sample(4), 0)) == 4,
    );
    tally.check(
        "present at the head",
        refusal(set.insert_head(K::sample(3), 0)) == 1,
    );
    tally.check(
        "no predecessor before full",
        refusal(set.insert_after(K::sample(5), K::sample(4), 0)) == 2,
    );
    tally.check(
        "full after a key",
        refusal(set.insert_after(K::sample(3), K::sample(4), 0)) == 4,
    );
    tally.check("places are told", set.index_of(K::sample(3)) == Some(2));
    tally.check(
        "an absent key has none",
        set.index_of(K::sample(4)).is_none(),
    );
    tally.check("still three", set.length() == 3);
}

// Takes keys out, and puts others in where they stood.
fn emptying<K: Sample, S: OrderedSet<K>>(tally: &mut Tally<'_>, set: &mut S) {
    tally.check(
        "the middle key leaves place 1",
        set.remove_key(K::sample(2)) == Some(1),
    );
    tally.check("the rest closes up", set.index_of(K::sample(3)) == Some(1));
    tally.check("it is gone", set.remove_key(K::sample(2)).is_none());
    tally.check("nothing stands at place 2", set.remove_index(2).is_none());
    tally.check(
        "the first leaves by its place",
        set.remove_index(0) == Some(K::sample(1)),
    );
    tally.check("one is left", set.length() == 1);
    tally.check(
        "a key that left goes in again",
        refusal(set.insert_after(K::sample(3), K::sample(1), 5)) == 0,
    );
    tally.check(
        "another takes the last room",
        refusal(set.insert_index(1, K::sample(8), 5)) == 0,
    );
    tally.check("3, 8, 1: first", set.key_of(0) == Some(K::sample(3)));
    tally.check("3, 8, 1: second", set.key_of(1) == Some(K::sample(8)));
    tally.check("3, 8, 1: third", set.key_of(2) == Some(K::sample(1)));
    tally.check("the last leaves", set.remove_index(2) == Some(K::sample(1)));
    tally.check("then 8", set.remove_key(K::sample(8)) == Some(1));
    tally.check("then 3", set.remove_key(K::sample(3)) == Some(0));
    tally.check("empty again", set.length() == 0);
}

// All edges of an empty set with room for three.
pub(crate) fn edges<K: Sample, S: OrderedSet<K>>(tally: &mut Tally<'_>, set: &mut S) {
    empty::<K, S>(tally, set);
    filling::<K, S>(tally, set);
    full::<K, S>(tally, set);
    emptying::<K, S>(tally, set);
}

// The plain row, at both key types, over no cell, and over more cells than it takes.
pub(crate) fn plain_rows(tally: &mut Tally<'_>) {
    let mut numbers = [RuleNumber { value: 0 }; 3];
    edges::<RuleNumber, _>(tally, &mut PlainRow::new(&mut numbers));
    let mut tags = [TrainTag {
        class: b'A',
        number: 0,
    }; 3];
    edges::<TrainTag, _>(tally, &mut PlainRow::new(&mut tags));
    let mut none: [RuleNumber; 0] = [];
    let mut row = PlainRow::new(&mut none);
    tally.check("no cell, no room", row.capacity() == 0);
    tally.check(
        "no cell: full",
        refusal(row.insert_head(RuleNumber { value: 1 }, 0)) == 4,
    );
    tally.check(
        "no cell: past the end",
        refusal(row.insert_index(1, RuleNumber { value: 1 }, 0)) == 3,
    );
    let mut most = [RuleNumber { value: 0 }; 4096];
    tally.check("4,096 cells", PlainRow::new(&mut most).capacity() == 4096);
    let mut more = [RuleNumber { value: 0 }; 4097];
    tally.check(
        "of 4,097 cells the first 4,096 count",
        PlainRow::new(&mut more).capacity() == 4096,
    );
}
