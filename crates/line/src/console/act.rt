// What a line does: each command as a call on the panel, with a draw where it takes one.
ghost use Rattle.std.specs.Prelude.{◌≡◌};
ghost use Rattle.line.specs.Answers.{printed};
ghost use Rattle.line.specs.Consoles.{Acted, Brief, Done, climbing};
ghost use Rattle.line.specs.declared.answer.Answer.TheVariants.{Placed, Sent};
ghost use Rattle.line.specs.Grammar.{adding, addition, asked, dropping, joining, listing, moving, sending};

use crate::answer::Answer;
use crate::command::{Adding, Command};
use crate::console::Console;
use crate::fault::LineFault;
use crate::reader::parse;
use book::fault::BookFault;
use book::rule::Rule;
use order::key::Key;
use order::keys::{RuleNumber, TrainTag};
use order::set::OrderedSet;

// These three and not the constructors are handed to `map`: their contracts also say that what is printed has room.
// The place that a call put in at or left.
#[tactic(auto, using(crate::proofs::Brief::placed_brief))]
fn placed(place: u32) -> Answer
    ensures is { result ≡ Placed place }
    ensures brief { Brief (Ok result) }
{
    Answer::Placed(place)
}

// The train that left, with its rule's number and route.
#[tactic(auto, using(crate::proofs::Brief::sent_brief))]
fn left(tag: TrainTag, number: u16, route: u8) -> Answer
    ensures is { result ≡ Sent (Some (tag, number, route)) }
    ensures brief { Brief (Ok result) }
{
    Answer::Sent(Some((tag, number, route)))
}

// The train that left, or that it stays.
fn sent(departed: Option<(TrainTag, u16, u8)>) -> Answer
    ensures is { result ≡ Sent departed }
    ensures brief { Brief (Ok result) }
{
    match departed {
        Some((tag, number, route)) => left(tag, number, route),
        None => Answer::Sent(None),
    }
}

impl<R: OrderedSet<RuleNumber>, Y: OrderedSet<TrainTag>> Console<R, Y> {
    // The draw is taken first, whatever comes of the rule.
    fn add(&mut self, added: Adding<'_>) -> Result<Answer, BookFault>
        ensures { Done R.OrderedSet Y.OrderedSet self.old self.new (adding (addition added.entry)) (printed (climbing result)) }
    {
        let draw = self.draws.next();
        let rule = Rule::new(added.first, added.last, added.classes, added.route)?;
        self.panel
            .add(added.number, rule, u32::from(added.place), draw)
            .map(placed)
    }

    fn drop_rule(&mut self, number: u16) -> Result<Answer, BookFault>
        ensures { Done R.OrderedSet Y.OrderedSet self.old self.new (dropping number) (printed (climbing result)) }
    {
        self.panel.drop_rule(number).map(placed)
    }

    fn move_rule(&mut self, number: u16, place: u16) -> Result<Answer, BookFault>
        ensures { Done R.OrderedSet Y.OrderedSet self.old self.new (moving number place) (printed (climbing result)) }
    {
        let draw = self.draws.next();
        self.panel
            .move_rule(number, u32::from(place), draw)
            .map(placed)
    }

    fn join(&mut self, tag: TrainTag) -> Result<Answer, BookFault>
        ensures { Done R.OrderedSet Y.OrderedSet self.old self.new (joining tag) (printed (climbing result)) }
    {
        let draw = self.draws.next();
        self.panel.join(tag, draw).map(placed)
    }

    fn send(&mut self, turnout: u16) -> Result<Answer, BookFault>
        ensures { Done R.OrderedSet Y.OrderedSet self.old self.new (sending turnout) (printed (climbing result)) }
    {
        self.panel.send(turnout).map(sent)
    }

    #[tactic(auto, using(crate::proofs::Acting::done_listed))]
    fn list(&mut self) -> Answer
        ensures { Done R.OrderedSet Y.OrderedSet self.old self.new listing (printed (Ok result)) }
    {
        Answer::Listed(self.panel.listed())
    }

    fn carry(&mut self, command: Command<'_>) -> Result<Answer, BookFault>
        ensures { Done R.OrderedSet Y.OrderedSet self.old self.new (asked command.entry) (printed (climbing result)) }
    {
        match command {
            Command::Add(added) => self.add(added),
            Command::Drop { number } => self.drop_rule(number),
            Command::Move { number, place } => self.move_rule(number, place),
            Command::Join(tag) => self.join(tag),
            Command::Send { turnout } => self.send(turnout),
            Command::List => Ok(self.list()),
        }
    }

    // Does what a line says; a line that says nothing is refused.
    pub(crate) fn act(&mut self, line: &[u8]) -> Result<Answer, LineFault>
        ensures { Acted R.OrderedSet Y.OrderedSet self.old self.new line.now (printed result) }
    {
        let command = parse(line)?;
        self.carry(command).map_err(LineFault::Book)
    }
}
