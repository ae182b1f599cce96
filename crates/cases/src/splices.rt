// Push, splice and the cursor, over a plain row and over a pile.
use crate::sample::{A, B, C, is_order, refusal};
use crate::tally::Tally;
use layers::above::{push, splice};
use layers::cursor::Cursor;
use layers::last_place::LastPlace;
use layers::limit::Limit;
use layers::loan::Loan;
use order::key::Key;
use order::keys::RuleNumber;
use order::plain_row::PlainRow;
use order::set::OrderedSet;

const X: RuleNumber = RuleNumber { value: 7 };

const Y: RuleNumber = RuleNumber { value: 8 };

// Refusals of a splice, into a set that holds a, b, c and has room for six.
fn refusals<S: OrderedSet<RuleNumber>>(tally: &mut Tally<'_>, set: &mut S) {
    tally.check("uneven", refusal(splice(set, 0, &[X, Y], &[0])) == 5);
    tally.check(
        "uneven before past the end",
        refusal(splice(set, 9, &[X], &[])) == 5,
    );
    tally.check("past the end", refusal(splice(set, 4, &[X], &[0])) == 3);
    tally.check(
        "past the end before full",
        refusal(splice(set, 4, &[X, Y, A, B], &[0; 4])) == 3,
    );
    tally.check(
        "present keys count against the room",
        refusal(splice(set, 0, &[A, B, C, A], &[0; 4])) == 4,
    );
    tally.check("nothing was altered", is_order(set, &[A, B, C]));
    tally.check("an empty splice", splice(set, 3, &[], &[]) == Ok(0));
}

// The worked example, and a key that stands twice in the slice.
fn spliced<S: OrderedSet<RuleNumber>>(tally: &mut Tally<'_>, set: &mut S) {
    tally.check(
        "a at the end of nothing",
        refusal(push(set, A, 1 << 30)) == 0,
    );
    tally.check("b at the end", refusal(push(set, B, 0)) == 0);
    tally.check("c at the end", refusal(push(set, C, 4)) == 0);
    tally.check("a present key is not pushed", refusal(push(set, A, 0)) == 1);
    refusals(tally, set);
    tally.check(
        "x b y at 0: two went in",
        splice(set, 0, &[X, B, Y], &[5, 6, 7]) == Ok(2),
    );
    tally.check("x a b y c", is_order(set, &[X, A, B, Y, C]));
    tally.check("out with x", set.remove_key(X) == Some(0));
    tally.check("out with y", set.remove_key(Y) == Some(2));
    tally.check(
        "x x y at the end: two went in",
        splice(set, 3, &[X, X, Y], &[1, 2, 3]) == Ok(2),
    );
    tally.check("a b c x y", is_order(set, &[A, B, C, X, Y]));
    tally.check(
        "c a: the next goes after a",
        splice(set, 0, &[A], &[9]) == Ok(0),
    );
}

// A cursor over a b c, of which b leaves before it is given.
fn walked<S: OrderedSet<RuleNumber>>(tally: &mut Tally<'_>, set: &mut S) {
    let mut cursor = Cursor::first(set);
    tally.check("a first", cursor.step(set) == Some(A));
    tally.check("then b", cursor.step(set) == Some(B));
    tally.check("then c", cursor.step(set) == Some(C));
    let mut late = Cursor::first(set);
    tally.check("a again", late.step(set) == Some(A));
    tally.check("b leaves", set.remove_key(B) == Some(1));
    tally.check("b is not given", late.step(set).is_none());
    tally.check("and none after it", late.step(set).is_none());
    let mut last = Cursor::first(set);
    let _ = set.remove_key(A);
    tally.check("the key in hand left", last.step(set).is_none());
}

// An emptied set gives a cursor nothing; a key that moved is followed to where it stands.
fn wandering<S: OrderedSet<RuleNumber>>(tally: &mut Tally<'_>, set: &mut S) {
    let mut none = Cursor::first(set);
    tally.check("nothing to give", none.step(set).is_none());
    let _ = splice(set, 0, &[A, B, C], &[0, 0, 0]);
    let mut cursor = Cursor::first(set);
    let _ = set.remove_key(A);
    let _ = push(set, A, 0);
    tally.check("a, wherever it stands", cursor.step(set) == Some(A));
    tally.check("nothing behind it", cursor.step(set).is_none());
}

fn over_plain_rows(tally: &mut Tally<'_>) {
    let mut cells = [A; 6];
    let mut row = PlainRow::new(&mut cells);
    spliced(tally, &mut row);
    walked(tally, &mut row);
    let mut cells = [A; 6];
    wandering(tally, &mut PlainRow::new(&mut cells));
}

fn over_pile(tally: &mut Tally<'_>) {
    let mut cells = [A; 9];
    let mut row = PlainRow::new(&mut cells);
    let mut pile = Limit::new(LastPlace::new(Loan::new(&mut row)), 6);
    spliced(tally, &mut pile);
    walked(tally, &mut pile);
}

pub(crate) fn examples(tally: &mut Tally<'_>) {
    over_plain_rows(tally);
    over_pile(tally);
}
