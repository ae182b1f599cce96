// A book: rule numbers in an ordered set, and each one's rule.
ghost use Rattle.std.specs.Prelude.{◌≡◌, ℕ, length, None};
ghost use Rattle.book.specs.Pages.{recorded};

use crate::rule::Rule;
use order::key::Key;
use order::keys::RuleNumber;
use order::set::OrderedSet;

pub mod change;
pub mod decide;
pub mod list;

// The rules lie in an array, which is a map of the numbers 0 to 255 and needs no heap.
#[derive(Drop)]
pub struct Book<S> {
    set: S,
    rules: [Option<Rule>; 256],
    ghost whole: { length rules ≡ 256 },
}

// The rule recorded under a number, if it has one.
fn rule_of(rules: &[Option<Rule>; 256], number: RuleNumber) -> Option<Rule>
    ensures { result ≡ recorded rules.now number.value }
{
    if number.value > 255 {
        return None;
    }
    rules[number.value as usize]
}

impl<S: OrderedSet<RuleNumber>> Book<S> {
    // A book over a set; the keys that the set has have no rule, and match nothing.
    pub fn new(set: S) -> Book<S>
        ensures set { result.set ≡ set }
        ensures rules { recorded result.rules ≡ (λ (_ : ℕ). None) }
    {
        Book {
            set,
            rules: [None; 256],
        }
    }
}
