// Calls on a panel one after another, each with its answer, and the law that every history of them obeys.
ghost use Rattle.std.specs.Prelude.{◌≡◌, true, [], ◌∷◌, map};
ghost use Rattle.book.specs.Calls.{Carries, called, still, turn};
ghost use Rattle.book.specs.Law.{GoesOn, RouteLaw};
ghost use Rattle.book.specs.Yards.{Empty, Over, Unmoved, board, opens};

use crate::call::{Answer, Call, Turn};
use crate::fault::BookFault;
use crate::panel::Panel;
use order::key::Key;
use order::keys::{RuleNumber, TrainTag};
use order::set::OrderedSet;

impl<R: OrderedSet<RuleNumber>, Y: OrderedSet<TrainTag>> Panel<R, Y> {
    fn carry(&mut self, call: Call) -> Result<Answer, BookFault>
        ensures answers { Over R.OrderedSet Y.OrderedSet self.old self.new (Carries call result) }
        ensures kept { still result ≡ true → Unmoved R.OrderedSet Y.OrderedSet self.old self.new }
    {
        match call {
            Call::Add {
                number,
                rule,
                place,
                draw,
            } => self.add(number, rule, place, draw).map(Answer::Placed),
            Call::Drop { number } => self.drop_rule(number).map(Answer::Placed),
            Call::Move {
                number,
                place,
                draw,
            } => self.move_rule(number, place, draw).map(Answer::Placed),
            Call::Join { tag, draw } => self.join(tag, draw).map(Answer::Placed),
            Call::Send { turnout } => self.send(turnout).map(Answer::Sent),
            Call::Decide { turnout, class } => self.decide(turnout, class).map(Answer::Decided),
        }
    }

    // Carries out a call: whatever lawful history led here, it goes on lawfully.
    pub fn step(&mut self, call: Call) -> Result<Answer, BookFault>
        ensures answers { Over R.OrderedSet Y.OrderedSet self.old self.new (Carries call result) }
        ensures kept { still result ≡ true → Unmoved R.OrderedSet Y.OrderedSet self.old self.new }
        ensures law { Over R.OrderedSet Y.OrderedSet self.old self.new (GoesOn (turn call result ∷ [])) }
    {
        self.carry(call)
    }

    // Carries out the calls of a script in turn, and writes each one's answer beside it.
    pub fn run(&mut self, script: &mut [Turn])
        ensures calls { map called script.new ≡ map called script.old }
        ensures law { Over R.OrderedSet Y.OrderedSet self.old self.new (GoesOn script.new) }
    {
        for turn in script.iter_mut() {
            turn.answer = self.step(turn.call);
        }
    }

    // The panel after a script of calls on two sets; where both were empty, the law of routes and departures holds of it.
    pub fn after(rules: R, yard: Y, script: &mut [Turn]) -> Panel<R, Y>
        ensures calls { map called script.new ≡ map called script.old }
        ensures law { Empty R.OrderedSet rules → Empty Y.OrderedSet yard → RouteLaw (opens R.OrderedSet Y.OrderedSet rules yard) script.new (board R.OrderedSet Y.OrderedSet result) }
    {
        let mut panel = Panel::new(rules, yard);
        panel.run(script);
        panel
    }
}
