// The calls that change a book: add, drop and move.
ghost use Rattle.std.specs.Prelude.{◌≡◌, false, is_ok};
ghost use Rattle.book.specs.Books.{Across, Adds, Drops, Kept, Moves};

use crate::book::Book;
use crate::fault::BookFault;
use crate::rule::Rule;
use order::fault::SetFault;
use order::key::Key;
use order::keys::RuleNumber;
use order::set::OrderedSet;

impl<S: OrderedSet<RuleNumber>> Book<S> {
    // Puts a rule in at a place; answers the place.
    pub fn add(&mut self, number: u16, rule: Rule, place: u32, draw: u32) -> Result<u32, BookFault>
        ensures adds { Across S.OrderedSet self.old self.new (Adds number rule place result) }
        ensures kept { is_ok result ≡ false → Kept S.OrderedSet self.old self.new }
    {
        if number > 255 {
            return Err(BookFault::BadNumber);
        }
        self.set
            .insert_index(place, RuleNumber { value: number }, draw)?;
        self.rules[number as usize] = Some(rule);
        Ok(place)
    }

    // Takes a rule out; answers its old place.
    pub fn drop_rule(&mut self, number: u16) -> Result<u32, BookFault>
        ensures drops { Across S.OrderedSet self.old self.new (Drops number result) }
        ensures kept { is_ok result ≡ false → Kept S.OrderedSet self.old self.new }
    {
        if number > 255 {
            return Err(BookFault::BadNumber);
        }
        let place = self
            .set
            .remove_key(RuleNumber { value: number })
            .ok_or(BookFault::NoRule)?;
        self.rules[number as usize] = None;
        Ok(place)
    }

    // Takes a rule out and puts it in at a place of what remains; answers the place.
    pub fn move_rule(&mut self, number: u16, place: u32, draw: u32) -> Result<u32, BookFault>
        ensures moves { Across S.OrderedSet self.old self.new (Moves number place result) }
        ensures kept { is_ok result ≡ false → Kept S.OrderedSet self.old self.new }
    {
        if number > 255 {
            return Err(BookFault::BadNumber);
        }
        let key = RuleNumber { value: number };
        if self.set.index_of(key).is_none() {
            return Err(BookFault::NoRule);
        }
        if place >= self.set.length() {
            return Err(BookFault::Rules(SetFault::PastEnd));
        }
        let _ = self.set.remove_key(key);
        self.set.insert_index(place, key, draw)?;
        Ok(place)
    }
}
