// The row list: edges of its memory, its levels and its links, and the same edges and runs as every other set.
use crate::edges::edges;
use crate::random::run;
use crate::sample::constant::Same;
use crate::sample::{A, B, C, Sample, refusal};
use crate::tally::Tally;
use layers::above::push;
use links::Row;
use order::key::{HashKey, Key};
use order::keys::{RuleNumber, TrainTag};
use order::set::OrderedSet;
use skip_list::fault::ListFault;
use skip_list::list::SkipList;
use skip_list::memory::check_memory;
use skip_list::report::{KeyLink, KeyLinks};
use std::io;

// The memory check at its edges; of two slices the shorter counts.
fn memory(tally: &mut Tally<'_>) {
    tally.check("no rows", refusal(check_memory(0, 0, 0)) == 6);
    tally.check("one row", refusal(check_memory(1, 1, 2)) == 0);
    tally.check("4,096 rows", refusal(check_memory(4096, 4096, 8192)) == 0);
    tally.check("4,097 rows", refusal(check_memory(4097, 4097, 8194)) == 6);
    tally.check("a slot short", refusal(check_memory(4, 4, 7)) == 6);
    tally.check("a slot over", refusal(check_memory(4, 4, 9)) == 6);
    tally.check("fewer keys count", refusal(check_memory(3, 8, 6)) == 0);
    tally.check("fewer rows count", refusal(check_memory(8, 3, 6)) == 0);
    tally.check("the longer does not", refusal(check_memory(3, 8, 16)) == 6);
    tally.check(
        "more than 4,096 of one slice only",
        refusal(check_memory(4096, 5000, 8192)) == 0,
    );
}

// A list over memory that fails the check has room for nothing.
fn bad_memory(tally: &mut Tally<'_>) {
    let mut keys = [A; 4];
    let mut rows = [Row::empty(); 4];
    let mut slots = [0u16; 7];
    let mut list = SkipList::new(&mut keys, &mut rows, &mut slots);
    tally.check("bad memory: no room", list.capacity() == 0);
    tally.check("bad memory: full", refusal(list.insert_head(A, 0)) == 4);
    tally.check(
        "bad memory: past the end",
        refusal(list.insert_index(1, A, 0)) == 3,
    );
    tally.check(
        "bad memory: no predecessor",
        refusal(list.insert_after(A, B, 0)) == 2,
    );
    tally.check("bad memory: nothing found", list.index_of(A).is_none());
}

// The edges of every set, where the row slice is the shorter one, where the key slice is, and where every hash is the same.
fn all_edges(tally: &mut Tally<'_>) {
    edges::<RuleNumber, _>(
        tally,
        &mut SkipList::new(&mut [A; 9], &mut [Row::empty(); 3], &mut [7; 6]),
    );
    edges::<TrainTag, _>(
        tally,
        &mut SkipList::new(
            &mut [TrainTag::sample(0); 3],
            &mut [Row::empty(); 9],
            &mut [9; 6],
        ),
    );
    edges::<Same, _>(
        tally,
        &mut SkipList::new(
            &mut [Same::sample(0); 3],
            &mut [Row::empty(); 3],
            &mut [0; 6],
        ),
    );
}

// A report of two links, each with the key that it names and its count.
fn links(
    ahead: (Option<RuleNumber>, u16),
    back: (Option<RuleNumber>, u16),
) -> Result<KeyLinks<RuleNumber>, ListFault> {
    Ok(KeyLinks {
        ahead: KeyLink {
            key: ahead.0,
            count: ahead.1,
        },
        back: KeyLink {
            key: back.0,
            count: back.1,
        },
    })
}

// A new list, then a, b, c pushed with draws 2^30, 0 and 4, so that they have levels 1, 16 and 15.
fn pushed(tally: &mut Tally<'_>, list: &mut SkipList<'_, RuleNumber>) {
    tally.check(
        "a new head links to none with 1",
        list.link_report(None, 0) == links((None, 1), (None, 0)),
    );
    tally.check(
        "a new head has no level 1",
        refusal(list.link_report(None, 1)) == 8,
    );
    tally.check(
        "an absent key has no links",
        refusal(list.link_report(Some(A), 0)) == 7,
    );
    tally.check("nor a level", list.level_report(A).is_none());
    tally.check("push a", refusal(push(list, A, 1 << 30)) == 0);
    tally.check("push b", refusal(push(list, B, 0)) == 0);
    tally.check("push c", refusal(push(list, C, 4)) == 0);
    tally.check("a has level 1", list.level_report(A) == Some(1));
    tally.check("b has level 16", list.level_report(B) == Some(16));
    tally.check("c has level 15", list.level_report(C) == Some(15));
}

fn linked(tally: &mut Tally<'_>, list: &mut SkipList<'_, RuleNumber>) {
    tally.check(
        "level 15 from the head",
        list.link_report(None, 15) == links((Some(B), 2), (None, 0)),
    );
    tally.check(
        "level 15 from b",
        list.link_report(Some(B), 15) == links((None, 2), (None, 2)),
    );
    tally.check(
        "level 14 from b",
        list.link_report(Some(B), 14) == links((Some(C), 1), (None, 2)),
    );
    tally.check(
        "level 14 from c",
        list.link_report(Some(C), 14) == links((None, 1), (Some(B), 1)),
    );
    tally.check(
        "level 0 from a",
        list.link_report(Some(A), 0) == links((Some(B), 1), (None, 1)),
    );
    tally.check(
        "a has no level 1",
        refusal(list.link_report(Some(A), 1)) == 8,
    );
    tally.check(
        "c has no level 15",
        refusal(list.link_report(Some(C), 15)) == 8,
    );
    tally.check(
        "there is no level 16",
        refusal(list.link_report(None, 16)) == 8,
    );
    tally.check("nor 255", refusal(list.link_report(Some(B), 255)) == 8);
    tally.check(
        "no key before no level",
        refusal(list.link_report(Some(RuleNumber { value: 9 }), 255)) == 7,
    );
}

// b leaves: the height stays, and the counts close up. It comes back with another level.
fn unlinked(tally: &mut Tally<'_>, list: &mut SkipList<'_, RuleNumber>) {
    tally.check("b leaves place 1", list.remove_key(B) == Some(1));
    tally.check(
        "level 15 from the head, b gone",
        list.link_report(None, 15) == links((None, 3), (None, 0)),
    );
    tally.check(
        "level 14 from the head, b gone",
        list.link_report(None, 14) == links((Some(C), 2), (None, 0)),
    );
    tally.check(
        "the height is still 16",
        refusal(list.link_report(None, 15)) == 0,
    );
    tally.check(
        "b comes back first",
        refusal(list.insert_head(B, u32::MAX)) == 0,
    );
    tally.check("with level 1", list.level_report(B) == Some(1));
    tally.check(
        "its links",
        list.link_report(Some(B), 0) == links((Some(A), 1), (None, 1)),
    );
    tally.check(
        "level 14 from the head, b before c",
        list.link_report(None, 14) == links((Some(C), 3), (None, 0)),
    );
    list.clear();
    tally.check("cleared", list.length() == 0);
    tally.check(
        "cleared, the head is new",
        refusal(list.link_report(None, 1)) == 8,
    );
}

fn levels_and_links(tally: &mut Tally<'_>) {
    let mut keys = [A; 4];
    let mut rows = [Row::empty(); 4];
    let mut slots = [0u16; 8];
    let mut list = SkipList::new(&mut keys, &mut rows, &mut slots);
    pushed(tally, &mut list);
    linked(tally, &mut list);
    unlinked(tally, &mut list);
}

pub(crate) fn examples(tally: &mut Tally<'_>) {
    memory(tally);
    bad_memory(tally);
    all_edges(tally);
    levels_and_links(tally);
}

pub(crate) fn runs(rt: &HostRuntime, tally: &mut Tally<'_>) -> io::Result<()> {
    run::<RuleNumber, _>(
        rt,
        tally,
        &mut SkipList::new(&mut [A; 40], &mut [Row::empty(); 40], &mut [0; 80]),
        64,
        6000,
    )?;
    run::<Same, _>(
        rt,
        tally,
        &mut SkipList::new(
            &mut [Same::sample(0); 24],
            &mut [Row::empty(); 24],
            &mut [0; 48],
        ),
        40,
        3000,
    )?;
    Ok(())
}
