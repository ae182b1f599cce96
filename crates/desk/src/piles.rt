// The program's two piles of layers, each put together here and nowhere else.
ghost use Rattle.std.specs.Prelude.{◌≡◌, min};
ghost use Rattle.order.specs.Order.{vacant};
ghost use Rattle.skip_list.specs.Lent.{size};

use layers::last_place::LastPlace;
use layers::limit::Limit;
use layers::loan::Loan;
use order::keys::{RuleNumber, TrainTag};
use order::set::OrderedSet;
use skip_list::list::SkipList;

// The most trains that wait in the yard.
const BERTHS: u32 = 12;

pub type RulesPile<'r, 'n> = LastPlace<RuleNumber, Loan<'r, SkipList<'n, RuleNumber>>>;

pub type YardPile<'y, 't> = Limit<TrainTag, LastPlace<TrainTag, Loan<'y, SkipList<'t, TrainTag>>>>;

// A last place over the list of rule numbers, which begins anew.
pub fn rules_pile<'r, 'n>(numbers: &'r mut SkipList<'n, RuleNumber>) -> RulesPile<'r, 'n>
    ensures { ⟦<RulesPile<'r, 'n> as OrderedSet<RuleNumber>>⟧.meaning result ≡ vacant (size numbers.old.lent) }
{
    numbers.clear();
    LastPlace::new(Loan::new(numbers))
}

// A limit over a last place over the list of tags, which begins anew.
pub fn yard_pile<'y, 't>(tags: &'y mut SkipList<'t, TrainTag>) -> YardPile<'y, 't>
    ensures { ⟦<YardPile<'y, 't> as OrderedSet<TrainTag>>⟧.meaning result ≡ vacant (min 12 (size tags.old.lent)) }
{
    tags.clear();
    Limit::new(LastPlace::new(Loan::new(tags)), BERTHS)
}
