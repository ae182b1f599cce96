// A console: a panel behind a command line, and the draws that its lines take.
ghost use Rattle.std.specs.Prelude.{◌≡◌, []};
ghost use Rattle.line.specs.Consoles.{stand};
ghost use Rattle.line.specs.Dialogues.{Dialogue, opening};

use book::panel::Panel;
use draws::Draws;
use order::key::Key;
use order::keys::{RuleNumber, TrainTag};
use order::set::OrderedSet;

mod act;
pub mod answer;

#[derive(Drop)]
pub struct Console<R, Y> {
    panel: Panel<R, Y>,
    draws: Draws,
}

impl<R: OrderedSet<RuleNumber>, Y: OrderedSet<TrainTag>> Console<R, Y> {
    // A console over two sets, with no rules yet; its draws start from 1, and a dialogue begins.
    pub fn new(rules: R, yard: Y) -> Console<R, Y>
        ensures means { stand R.OrderedSet Y.OrderedSet result ≡ opening R.OrderedSet Y.OrderedSet rules yard }
        ensures rules { result.panel.book.set ≡ rules }
        ensures yard { result.panel.yard ≡ yard }
        ensures begins { Dialogue (opening R.OrderedSet Y.OrderedSet rules yard) [] [] (stand R.OrderedSet Y.OrderedSet result) }
    {
        let panel = Panel::new(rules, yard);
        let draws = Draws::new();
        Console { panel, draws }
    }
}
