// Layers in several sequences: each pile is an ordered set, and meets the same edges.
use crate::edges::edges;
use crate::sample::refusal;
use crate::tally::Tally;
use layers::above::push;
use layers::last_place::LastPlace;
use layers::limit::Limit;
use layers::loan::Loan;
use order::key::Key;
use order::keys::RuleNumber;
use order::plain_row::PlainRow;
use order::set::OrderedSet;

fn limit_over_last_place(tally: &mut Tally<'_>) {
    let mut cells = [RuleNumber { value: 0 }; 8];
    let mut row = PlainRow::new(&mut cells);
    let mut pile = Limit::new(LastPlace::new(Loan::new(&mut row)), 3);
    edges::<RuleNumber, _>(tally, &mut pile);
}

fn last_place_over_limit(tally: &mut Tally<'_>) {
    let mut cells = [RuleNumber { value: 0 }; 8];
    let mut row = PlainRow::new(&mut cells);
    let mut pile = LastPlace::new(Limit::new(Loan::new(&mut row), 3));
    edges::<RuleNumber, _>(tally, &mut pile);
}

fn two_limits(tally: &mut Tally<'_>) {
    let mut cells = [RuleNumber { value: 0 }; 8];
    let mut row = PlainRow::new(&mut cells);
    let mut pile = Limit::new(Limit::new(Loan::new(&mut row), 3), 5);
    edges::<RuleNumber, _>(tally, &mut pile);
    let mut pile = Limit::new(Limit::new(Loan::new(&mut row), 5), 3);
    edges::<RuleNumber, _>(tally, &mut pile);
}

fn two_last_places(tally: &mut Tally<'_>) {
    let mut cells = [RuleNumber { value: 0 }; 3];
    let mut row = PlainRow::new(&mut cells);
    let mut pile = LastPlace::new(LastPlace::new(Loan::new(&mut row)));
    edges::<RuleNumber, _>(tally, &mut pile);
}

// A limit over a set that holds two already is never less than two.
fn limit_made_late(tally: &mut Tally<'_>) {
    let mut cells = [RuleNumber { value: 0 }; 4];
    let mut row = PlainRow::new(&mut cells);
    let _ = push(&mut row, RuleNumber { value: 1 }, 0);
    let _ = push(&mut row, RuleNumber { value: 2 }, 0);
    let mut pile = Limit::new(Loan::new(&mut row), 1);
    tally.check("no less than the length", pile.capacity() == 2);
    tally.check(
        "full at once",
        refusal(push(&mut pile, RuleNumber { value: 3 }, 0)) == 4,
    );
    tally.check("one leaves", pile.remove_index(0).is_some());
    tally.check("the room stays", pile.capacity() == 2);
    tally.check(
        "one joins",
        refusal(push(&mut pile, RuleNumber { value: 3 }, 0)) == 0,
    );
    tally.check(
        "and is the last",
        refusal(push(&mut pile, RuleNumber { value: 4 }, 0)) == 4,
    );
    let wide = Limit::new(Loan::new(&mut row), 99);
    tally.check("no more than the room below", wide.capacity() == 4);
}

pub(crate) fn piles(tally: &mut Tally<'_>) {
    limit_over_last_place(tally);
    last_place_over_limit(tally);
    two_limits(tally);
    two_last_places(tally);
    limit_made_late(tally);
}
