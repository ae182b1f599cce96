// Making a rule, and asking it.
ghost use Rattle.std.specs.Prelude.{◌≡◌, ◌-◌, ◌<◌, true, false};
ghost use Rattle.book.specs.Rules.{Covers, Makes, ClassSet};

use crate::approach::{Approach, is_turnout};
use crate::fault::BookFault;
use crate::rule::Rule;

// The classes listed, as a set of letters, or none where one is not a letter from A to Z.
fn class_set(classes: &[u8]) -> Option<[bool; 26]>
    ensures { ClassSet classes.now result }
{
    let mut set = [false; 26];
    for class in classes {
        if !class.is_ascii_uppercase() {
            return None;
        }
        set[(*class - b'A') as usize] = true;
    }
    Some(set)
}

impl Rule {
    // A rule for the turnouts from `first` to `last` and the classes listed, or BadRule where it would not be lawful.
    pub fn new(first: u16, last: u16, classes: &[u8], route: u16) -> Result<Rule, BookFault>
        ensures { Makes first last classes.now route result }
    {
        let Some(set) = class_set(classes) else {
            return Err(BookFault::BadRule);
        };
        if !is_turnout(first)
            || !is_turnout(last)
            || first > last
            || classes.is_empty()
            || route < 1
            || route > 255
        {
            return Err(BookFault::BadRule);
        }
        Ok(Rule {
            first,
            last,
            classes: set,
            route: route as u8,
        })
    }

    // Whether the rule matches a train of a class at a turnout.
    pub fn matches(&self, approach: Approach) -> bool
        ensures yes { result ≡ true → Covers self.now approach }
        ensures no { Covers self.now approach → result ≡ true }
    {
        let Approach { turnout, class } = approach;
        if !class.is_ascii_uppercase() || turnout < self.first || turnout > self.last {
            return false;
        }
        self.classes[(class - b'A') as usize]
    }

    pub fn route(&self) -> u8
        ensures { result ≡ self.now.route }
    {
        self.route
    }
}
