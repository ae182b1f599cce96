// The calls of a panel: those of its book, and join and send.
ghost use Rattle.std.specs.Prelude.{◌≡◌, true, false, is_ok};
ghost use Rattle.book.specs.Pages.{approach};
ghost use Rattle.book.specs.Books.{Across, Adds, Answers, Drops, Kept, Lists, Moves};
ghost use Rattle.book.specs.Calls.{sent, still};
ghost use Rattle.book.specs.Yards.{Joins, Over, OverSet, Pushes, Sends, Unmoved};

use crate::approach::{Approach, is_turnout};
use crate::fault::{BookFault, YardFault};
use crate::panel::Panel;
use crate::rule::Rule;
use arrayvec::ArrayVec;
use layers::above::push;
use order::key::Key;
use order::keys::{RuleNumber, TrainTag};
use order::set::OrderedSet;

// Puts a train in at the end; answers the place.
fn push_train<Y: OrderedSet<TrainTag>>(
    yard: &mut Y,
    tag: TrainTag,
    draw: u32,
) -> Result<u32, YardFault>
    ensures pushes { OverSet Y.OrderedSet yard.old yard.new (Pushes tag result) }
    ensures kept { is_ok result ≡ false → Y.body yard.new ≡ Y.body yard.old }
{
    let place = yard.length();
    push(yard, tag, draw)?;
    Ok(place)
}

// The calls of the book are handed on one by one: lent out whole, the book would not promise that the yard stays.
impl<R: OrderedSet<RuleNumber>, Y: OrderedSet<TrainTag>> Panel<R, Y> {
    // Puts a rule in at a place; answers the place.
    pub fn add(&mut self, number: u16, rule: Rule, place: u32, draw: u32) -> Result<u32, BookFault>
        ensures adds { Across R.OrderedSet self.old.book self.new.book (Adds number rule place result) }
        ensures kept { is_ok result ≡ false → Kept R.OrderedSet self.old.book self.new.book }
        ensures yard { self.new.yard ≡ self.old.yard }
    {
        self.book.add(number, rule, place, draw)
    }

    // Takes a rule out; answers its old place.
    pub fn drop_rule(&mut self, number: u16) -> Result<u32, BookFault>
        ensures drops { Across R.OrderedSet self.old.book self.new.book (Drops number result) }
        ensures kept { is_ok result ≡ false → Kept R.OrderedSet self.old.book self.new.book }
        ensures yard { self.new.yard ≡ self.old.yard }
    {
        self.book.drop_rule(number)
    }

    // Takes a rule out and puts it in at a place of what remains; answers the place.
    pub fn move_rule(&mut self, number: u16, place: u32, draw: u32) -> Result<u32, BookFault>
        ensures moves { Across R.OrderedSet self.old.book self.new.book (Moves number place result) }
        ensures kept { is_ok result ≡ false → Kept R.OrderedSet self.old.book self.new.book }
        ensures yard { self.new.yard ≡ self.old.yard }
    {
        self.book.move_rule(number, place, draw)
    }

    // The number and route of the matching rule of lowest place, or none.
    pub fn decide(&mut self, turnout: u16, class: u8) -> Result<Option<(u16, u8)>, BookFault>
        ensures decides { Across R.OrderedSet self.old.book self.new.book (Answers (approach turnout class) result) }
        ensures kept { Kept R.OrderedSet self.old.book self.new.book }
        ensures yard { self.new.yard ≡ self.old.yard }
    {
        self.book.decide(turnout, class)
    }

    // The numbers that have a rule, in order.
    pub fn listed(&mut self) -> ArrayVec<u16, 256>
        ensures lists { Across R.OrderedSet self.old.book self.new.book (Lists result.items) }
        ensures kept { Kept R.OrderedSet self.old.book self.new.book }
        ensures yard { self.new.yard ≡ self.old.yard }
    {
        self.book.listed()
    }

    // A train takes the last place in the yard; answers the place.
    pub fn join(&mut self, tag: TrainTag, draw: u32) -> Result<u32, BookFault>
        ensures joins { OverSet Y.OrderedSet self.old.yard self.new.yard (Joins tag result) }
        ensures kept { is_ok result ≡ false → Y.OrderedSet.body self.new.yard ≡ Y.OrderedSet.body self.old.yard }
        ensures book { self.new.book ≡ self.old.book }
    {
        if !tag.class.is_ascii_uppercase() || tag.number > 9999 {
            return Err(BookFault::BadTrain);
        }
        let place = push_train(&mut self.yard, tag, draw)?;
        Ok(place)
    }

    // The front train leaves by the rule that decides for it, or stays.
    pub fn send(&mut self, turnout: u16) -> Result<Option<(TrainTag, u16, u8)>, BookFault>
        ensures sends { Over R.OrderedSet Y.OrderedSet self.old self.new (Sends turnout result) }
        ensures kept { still (sent result) ≡ true → Unmoved R.OrderedSet Y.OrderedSet self.old self.new }
    {
        if !is_turnout(turnout) {
            return Err(BookFault::BadTurnout);
        }
        let tag = self.yard.key_of(0).ok_or(BookFault::NoTrain)?;
        let asked = Approach {
            turnout,
            class: tag.class,
        };
        let Some((number, route)) = self.book.first_match(asked) else {
            return Ok(None);
        };
        let _ = self.yard.remove_index(0);
        Ok(Some((tag, number, route)))
    }
}
