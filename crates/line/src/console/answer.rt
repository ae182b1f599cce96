// The one call of the command line: a line and a slice for its printed answer.
ghost use Rattle.line.specs.Consoles.{Answers, Tight};

use crate::answer::print;
use crate::console::Console;
use crate::fault::LineFault;
use order::key::Key;
use order::keys::{RuleNumber, TrainTag};
use order::set::OrderedSet;

// The fewest bytes that a printed answer is given room in.
const ROOM: usize = 1024;

impl<R: OrderedSet<RuleNumber>, Y: OrderedSet<TrainTag>> Console<R, Y> {
    // Does what a line says, and writes the printed answer and its newline at the front of `out`; answers their length.
    pub fn answer(&mut self, line: &[u8], out: &mut [u8]) -> Result<usize, LineFault>
        ensures small { Tight self.old self.new out.old out.new result }
        ensures answers { Answers R.OrderedSet Y.OrderedSet self.old self.new line.now out.old out.new result }
    {
        if out.len() < ROOM {
            return Err(LineFault::SmallOut);
        }
        let outcome = self.act(line);
        Ok(print(&outcome, out))
    }
}
