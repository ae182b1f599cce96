// What a line is answered, and how it is printed.
ghost use Rattle.std.specs.Prelude.{◌≤◌, length, map, decimal};
ghost use Rattle.line.specs.Answers.{list_text, placed_text, printed, printed_answer, refused_text, sent_text};
ghost use Rattle.line.specs.Pages.{Puts};
ghost use Rattle.line.specs.Printing.{Prints};
ghost use Rattle.line.specs.Words.{spread};

use crate::fault::LineFault;
use crate::page::Page;
use arrayvec::ArrayVec;
use order::keys::TrainTag;

// The place put in at or left; the train that left by a rule's number to a route, or none; the numbers that have a rule.
#[derive(Drop)]
pub(crate) enum Answer {
    Placed(u32),
    Sent(Option<(TrainTag, u16, u8)>),
    Listed(ArrayVec<u16, 256>),
}

// Not Display: the class of a tag is any byte, and need not be text.
impl Page {
    fn placed(&mut self, place: u32)
        ensures { Puts self.old (placed_text place) self.new }
    {
        self.text(b"ok ");
        self.number(place);
    }

    fn sent(&mut self, tag: TrainTag, number: u16, route: u8)
        ensures { Puts self.old (sent_text tag number route) self.new }
    {
        self.byte(tag.class);
        self.byte(b' ');
        self.number(tag.number);
        self.text(b" by ");
        self.number(number);
        self.text(b" to ");
        self.number(route);
    }

    fn listed(&mut self, numbers: &[u16])
        ensures { Puts self.old (list_text numbers.now) self.new }
    {
        let [first, rest @ ..] = numbers else {
            self.text(b"empty");
            return;
        };
        self.number(*first);
        self.spread(rest);
    }

    fn spread(&mut self, numbers: &[u16])
        ensures { Puts self.old (spread (map decimal numbers.now)) self.new }
    {
        for number in numbers {
            self.byte(b' ');
            self.number(*number);
        }
    }

    fn refused(&mut self, fault: LineFault)
        ensures { Puts self.old (refused_text fault) self.new }
    {
        self.text(b"no ");
        self.number(fault.number());
        self.byte(b' ');
        self.text(fault.word().as_bytes());
    }

    fn answer(&mut self, answer: &Answer)
        ensures { Puts self.old (printed_answer answer.now) self.new }
    {
        match answer {
            Answer::Placed(place) => self.placed(*place),
            Answer::Sent(Some((tag, number, route))) => self.sent(*tag, *number, *route),
            Answer::Sent(None) => self.text(b"none"),
            Answer::Listed(numbers) => self.listed(numbers.as_slice()),
        }
    }

    // A refusal is printed too.
    fn outcome(&mut self, outcome: &Result<Answer, LineFault>)
        ensures { Puts self.old (printed outcome.now) self.new }
    {
        match outcome {
            Ok(answer) => self.answer(answer),
            Err(fault) => self.refused(*fault),
        }
    }
}

// Writes what a line is answered and a newline at the front of `out`, and gives their length.
pub(crate) fn print(outcome: &Result<Answer, LineFault>, out: &mut [u8]) -> usize
    requires { 1024 ≤ length out.old }
    ensures { Prints (printed outcome.now) out.old out.new result }
{
    let mut page = Page::new();
    page.outcome(outcome);
    page.byte(b'\n');
    let line = page.as_slice();
    out[..line.len()].copy_from_slice(line);
    line.len()
}
