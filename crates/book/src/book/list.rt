// Which numbers of a book have a rule, in order.
ghost use Rattle.book.specs.Books.{Across, Kept, Lists};

use crate::book::{Book, rule_of};
use arrayvec::ArrayVec;
use order::key::Key;
use order::keys::RuleNumber;
use order::set::OrderedSet;

impl<S: OrderedSet<RuleNumber>> Book<S> {
    // The numbers that have a rule, in order. There is always room for one more, since a set has no number twice.
    pub fn listed(&mut self) -> ArrayVec<u16, 256>
        ensures lists { Across S.OrderedSet self.old self.new (Lists result.items) }
        ensures kept { Kept S.OrderedSet self.old self.new }
    {
        let mut numbers = ArrayVec::new();
        // By place, since a set is no slice, and a cursor would look each key up again.
        for place in 0..self.set.length() {
            if let Some(number) = self.set.key_of(place) {
                if rule_of(&self.rules, number).is_some() {
                    numbers.push(number.value);
                }
            }
        }
        numbers
    }
}
