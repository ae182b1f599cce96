// Which rule of a book decides.
ghost use Rattle.std.specs.Prelude.{◌≡◌};
ghost use Rattle.book.specs.Pages.{Decides, approach};
ghost use Rattle.book.specs.Books.{Across, Answers, Kept, pages};

use crate::approach::{Approach, is_turnout};
use crate::book::{Book, rule_of};
use crate::fault::BookFault;
use order::key::Key;
use order::keys::RuleNumber;
use order::set::OrderedSet;

impl<S: OrderedSet<RuleNumber>> Book<S> {
    // The number and route of the first rule of the order that matches.
    pub(crate) fn first_match(&mut self, asked: Approach) -> Option<(u16, u8)>
        ensures decides { Decides (pages S.OrderedSet self.old) asked result }
        ensures same { Across S.OrderedSet self.old self.new (λ v w. w ≡ v) }
        ensures kept { Kept S.OrderedSet self.old self.new }
    {
        // By place, since a set is no slice, and a cursor would look each key up again.
        for place in 0..self.set.length() {
            if let Some(number) = self.set.key_of(place) {
                if let Some(rule) = rule_of(&self.rules, number) {
                    if rule.matches(asked) {
                        return Some((number.value, rule.route()));
                    }
                }
            }
        }
        None
    }

    // The number and route of the matching rule of lowest place, or none.
    pub fn decide(&mut self, turnout: u16, class: u8) -> Result<Option<(u16, u8)>, BookFault>
        ensures decides { Across S.OrderedSet self.old self.new (Answers (approach turnout class) result) }
        ensures kept { Kept S.OrderedSet self.old self.new }
    {
        if !is_turnout(turnout) {
            return Err(BookFault::BadTurnout);
        }
        if !class.is_ascii_uppercase() {
            return Err(BookFault::BadTrain);
        }
        Ok(self.first_match(Approach { turnout, class }))
    }
}
