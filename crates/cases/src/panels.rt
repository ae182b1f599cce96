// The rule, the book and the panel at the edges of their refusals, over plain rows; and a desk whose output is too small.
use crate::sample::refusal;
use crate::tally::Tally;
use book::panel::Panel;
use book::rule::Rule;
use desk::desk::Desk;
use layers::above::push;
use layers::loan::Loan;
use links::Row;
use order::keys::{RuleNumber, TrainTag};
use order::plain_row::PlainRow;
use order::set::OrderedSet;
use skip_list::list::SkipList;

const NO_NUMBER: RuleNumber = RuleNumber { value: 0 };

const NO_TAG: TrainTag = TrainTag {
    class: b'A',
    number: 0,
};

fn is_rule(first: u16, last: u16, classes: &[u8], route: u16) -> bool {
    Rule::new(first, last, classes, route).is_ok()
}

// Lawful rules and those just beyond.
fn rules(tally: &mut Tally<'_>) {
    tally.check("the widest rule", is_rule(1, 2000, b"AZ", 255));
    tally.check("the narrowest rule", is_rule(2000, 2000, b"M", 1));
    tally.check("turnout 0", !is_rule(0, 5, b"A", 1));
    tally.check("turnout 2,001", !is_rule(5, 2001, b"A", 1));
    tally.check("first after last", !is_rule(6, 5, b"A", 1));
    tally.check("no class", !is_rule(5, 5, b"", 1));
    tally.check("the byte before A", !is_rule(5, 5, b"@", 1));
    tally.check("the byte after Z", !is_rule(5, 5, b"[", 1));
    tally.check("a small letter among capitals", !is_rule(5, 5, b"Ab", 1));
    tally.check("route 0", !is_rule(5, 5, b"A", 0));
    tally.check("route 256", !is_rule(5, 5, b"A", 256));
    tally.check("refused under 10", refusal(Rule::new(5, 5, b"A", 0)) == 10);
}

// The siding rule and the express rule both match turnout 12 for class F: their order decides.
fn deciding<R: OrderedSet<RuleNumber>, Y: OrderedSet<TrainTag>>(
    tally: &mut Tally<'_>,
    panel: &mut Panel<R, Y>,
) {
    let Ok(siding) = Rule::new(10, 14, b"FG", 3) else {
        return tally.check("the siding rule is lawful", false);
    };
    let Ok(express) = Rule::new(12, 12, b"EF", 7) else {
        return tally.check("the express rule is lawful", false);
    };
    tally.check(
        "add number 256",
        refusal(panel.add(256, siding, 0, 0)) == 11,
    );
    tally.check(
        "add at place 2 of one",
        refusal(panel.add(4, siding, 2, 0)) == 3,
    );
    tally.check(
        "add the siding rule",
        refusal(panel.add(4, siding, 1, 0)) == 0,
    );
    tally.check("add it again", refusal(panel.add(4, siding, 9, 0)) == 1);
    tally.check(
        "add the express rule",
        refusal(panel.add(255, express, 0, 0)) == 0,
    );
    tally.check(
        "the express rule decides",
        panel.decide(12, b'F') == Ok(Some((255, 7))),
    );
    tally.check(
        "beside it the siding rule",
        panel.decide(13, b'F') == Ok(Some((4, 3))),
    );
    tally.check("no rule for class H", panel.decide(12, b'H') == Ok(None));
    tally.check("one turnout short", panel.decide(9, b'F') == Ok(None));
    tally.check("one turnout past", panel.decide(15, b'F') == Ok(None));
}

fn decide_edges<R: OrderedSet<RuleNumber>, Y: OrderedSet<TrainTag>>(
    tally: &mut Tally<'_>,
    panel: &mut Panel<R, Y>,
) {
    tally.check("turnout 0", refusal(panel.decide(0, b'F')) == 13);
    tally.check("turnout 1", refusal(panel.decide(1, b'F')) == 0);
    tally.check("turnout 2,000", refusal(panel.decide(2000, b'F')) == 0);
    tally.check("turnout 2,001", refusal(panel.decide(2001, b'F')) == 13);
    tally.check("the byte before A", refusal(panel.decide(12, b'@')) == 14);
    tally.check("class A", refusal(panel.decide(12, b'A')) == 0);
    tally.check("class Z", refusal(panel.decide(12, b'Z')) == 0);
    tally.check("the byte after Z", refusal(panel.decide(12, b'[')) == 14);
    tally.check("turnout before class", refusal(panel.decide(0, b'@')) == 13);
}

// Three numbers stand in the order: 255, one that was there before the book, and 4.
fn moving<R: OrderedSet<RuleNumber>, Y: OrderedSet<TrainTag>>(
    tally: &mut Tally<'_>,
    panel: &mut Panel<R, Y>,
) {
    tally.check("move number 256", refusal(panel.move_rule(256, 0, 0)) == 11);
    tally.check(
        "move an absent number",
        refusal(panel.move_rule(5, 9, 0)) == 12,
    );
    tally.check(
        "move to the length",
        refusal(panel.move_rule(255, 3, 0)) == 3,
    );
    tally.check(
        "move to the last place",
        refusal(panel.move_rule(255, 2, 0)) == 0,
    );
    tally.check(
        "now the siding rule decides",
        panel.decide(12, b'F') == Ok(Some((4, 3))),
    );
    let numbers = panel.listed();
    tally.check("two numbers have a rule", numbers.len() == 2);
    tally.check("first 4", numbers.first().copied() == Some(4));
    tally.check("then 255", numbers.get(1).copied() == Some(255));
    tally.check("none after them", numbers.get(2).is_none());
    tally.check("drop number 256", refusal(panel.drop_rule(256)) == 11);
    tally.check("drop an absent number", refusal(panel.drop_rule(5)) == 12);
    tally.check("drop one that has no rule", panel.drop_rule(70) == Ok(0));
    tally.check("drop the siding rule", panel.drop_rule(4) == Ok(0));
    tally.check(
        "the express rule is left",
        panel.decide(12, b'F') == Ok(Some((255, 7))),
    );
}

fn tag(class: u8, number: u16) -> TrainTag {
    TrainTag { class, number }
}

fn sending<R: OrderedSet<RuleNumber>, Y: OrderedSet<TrainTag>>(
    tally: &mut Tally<'_>,
    panel: &mut Panel<R, Y>,
) {
    tally.check("send from an empty yard", refusal(panel.send(12)) == 15);
    tally.check("turnout before the yard", refusal(panel.send(0)) == 13);
    tally.check("send to 2,001", refusal(panel.send(2001)) == 13);
    tally.check("class before A", refusal(panel.join(tag(b'@', 1), 0)) == 14);
    tally.check("class after Z", refusal(panel.join(tag(b'[', 1), 0)) == 14);
    tally.check(
        "train 10,000",
        refusal(panel.join(tag(b'F', 10000), 0)) == 14,
    );
    tally.check("train 9,999", panel.join(tag(b'F', 9999), 0) == Ok(0));
    tally.check(
        "the same train",
        refusal(panel.join(tag(b'F', 9999), 0)) == 1,
    );
    tally.check(
        "another takes the second berth",
        panel.join(tag(b'H', 0), 0) == Ok(1),
    );
    tally.check(
        "a third finds none",
        refusal(panel.join(tag(b'F', 1), 0)) == 4,
    );
    tally.check("no rule there: it stays", panel.send(13) == Ok(None));
    tally.check("the first leaves", panel.send(12) != Ok(None));
    tally.check("the second finds no rule", panel.send(12) == Ok(None));
    tally.check("there is room again", panel.join(tag(b'F', 1), 0) == Ok(1));
}

// A panel over a row that held number 70 before: it has no rule and matches nothing.
fn over_plain_rows(tally: &mut Tally<'_>) {
    let mut numbers = [NO_NUMBER; 3];
    let mut tags = [NO_TAG; 2];
    let mut row = PlainRow::new(&mut numbers);
    let _ = push(&mut row, RuleNumber { value: 70 }, 0);
    let mut yard = PlainRow::new(&mut tags);
    let mut panel = Panel::new(Loan::new(&mut row), Loan::new(&mut yard));
    tally.check(
        "a number without a rule decides nothing",
        panel.decide(12, b'F') == Ok(None),
    );
    deciding(tally, &mut panel);
    decide_edges(tally, &mut panel);
    moving(tally, &mut panel);
    sending(tally, &mut panel);
}

// With 1,023 bytes a line is refused and does nothing; with 1,024 it is carried out.
fn small_output(tally: &mut Tally<'_>) {
    let mut numbers = [NO_NUMBER; 4];
    let mut number_rows = [Row::empty(); 4];
    let mut number_slots = [0u16; 8];
    let mut tags = [NO_TAG; 4];
    let mut tag_rows = [Row::empty(); 4];
    let mut tag_slots = [0u16; 8];
    let mut rules = SkipList::new(&mut numbers, &mut number_rows, &mut number_slots);
    let mut yard = SkipList::new(&mut tags, &mut tag_rows, &mut tag_slots);
    let mut desk = Desk::new(&mut rules, &mut yard);
    let mut small = [7u8; 1023];
    tally.check(
        "refused under 21",
        refusal(desk.answer(b"T F 21", &mut small)) == 21,
    );
    tally.check("nothing written", small[0] == 7);
    let mut room = [7u8; 1024];
    tally.check(
        "nobody joined",
        desk.answer(b"S 1", &mut room).unwrap_or(0) == 11,
    );
    tally.check(
        "no 15 book",
        room[3] == b'1' && room[4] == b'5' && room[10] == b'\n',
    );
    tally.check("later bytes stay", room[11] == 7 && room[1023] == 7);
    tally.check(
        "now it joins",
        desk.answer(b"T F 21", &mut room).unwrap_or(0) == 5,
    );
}

pub(crate) fn examples(tally: &mut Tally<'_>) {
    rules(tally);
    over_plain_rows(tally);
    small_output(tally);
}
