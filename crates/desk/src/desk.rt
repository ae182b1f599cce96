// A desk: what the members' lines are typed at.
ghost use Rattle.std.specs.Prelude.{◌≡◌, []};
ghost use Rattle.skip_list.specs.Lent.{size};
ghost use Rattle.line.specs.Consoles.{stand};
ghost use Rattle.line.specs.Dialogues.{Dialogue};
ghost use Rattle.desk.specs.Desks.{new_desk};

use crate::piles::{RulesPile, YardPile, rules_pile, yard_pile};
use line::console::Console;
use order::keys::{RuleNumber, TrainTag};
use order::set::OrderedSet;
use skip_list::list::SkipList;

pub mod answer;

#[derive(Drop)]
pub struct Desk<'r, 'n, 'y, 't> {
    console: Console<RulesPile<'r, 'n>, YardPile<'y, 't>>,
}

impl<'r, 'n, 'y, 't> Desk<'r, 'n, 'y, 't> {
    // Over two row lists, which begin anew: no rule, no train, and a dialogue begins.
    pub fn new(
        numbers: &'r mut SkipList<'n, RuleNumber>,
        tags: &'y mut SkipList<'t, TrainTag>,
    ) -> Desk<'r, 'n, 'y, 't>
        ensures begins { Dialogue (new_desk (size numbers.old.lent) (size tags.old.lent)) [] [] (stand ⟦<RulesPile<'r, 'n> as OrderedSet<RuleNumber>>⟧ ⟦<YardPile<'y, 't> as OrderedSet<TrainTag>>⟧ result.console) }
    {
        Desk {
            console: Console::new(rules_pile(numbers), yard_pile(tags)),
        }
    }
}
