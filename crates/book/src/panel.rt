// A panel: a book of rules, and a yard of waiting trains.
ghost use Rattle.std.specs.Prelude.{◌≡◌, []};
ghost use Rattle.book.specs.Law.{Follows};
ghost use Rattle.book.specs.Yards.{Empty, board, opens};

use crate::book::Book;
use order::key::Key;
use order::keys::{RuleNumber, TrainTag};
use order::set::OrderedSet;

pub mod calls;
pub mod run;

#[derive(Drop)]
pub struct Panel<R, Y> {
    book: Book<R>,
    yard: Y,
}

impl<R: OrderedSet<RuleNumber>, Y: OrderedSet<TrainTag>> Panel<R, Y> {
    // A panel over two sets; what they hold has no rule, and waits. Over empty ones a history begins.
    pub fn new(rules: R, yard: Y) -> Panel<R, Y>
        ensures rules { result.book.set ≡ rules }
        ensures yard { result.yard ≡ yard }
        ensures means { board R.OrderedSet Y.OrderedSet result ≡ opens R.OrderedSet Y.OrderedSet rules yard }
        ensures begins { Empty R.OrderedSet rules → Empty Y.OrderedSet yard → Follows (opens R.OrderedSet Y.OrderedSet rules yard) [] (board R.OrderedSet Y.OrderedSet result) }
    {
        Panel {
            book: Book::new(rules),
            yard,
        }
    }
}
