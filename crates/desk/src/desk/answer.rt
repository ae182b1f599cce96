// The one call of a desk: a line in, its printed answer out.
ghost use Rattle.std.specs.Prelude.{◌≤◌, IfOk};
ghost use Rattle.line.specs.Consoles.{Answers, Tight};

use crate::desk::Desk;
use crate::piles::{RulesPile, YardPile};
use line::fault::LineFault;
use order::keys::{RuleNumber, TrainTag};
use order::set::OrderedSet;

impl<'r, 'n, 'y, 't> Desk<'r, 'n, 'y, 't> {
    // Does what a line says, and writes the printed answer and its newline at the front of `out`; answers their length.
    pub fn answer(&mut self, line: &[u8], out: &mut [u8]) -> Result<usize, LineFault>
        ensures small { Tight self.old.console self.new.console out.old out.new result }
        ensures answers { Answers ⟦<RulesPile<'r, 'n> as OrderedSet<RuleNumber>>⟧ ⟦<YardPile<'y, 't> as OrderedSet<TrainTag>>⟧ self.old.console self.new.console line.now out.old out.new result }
        ensures bound { IfOk result (λ n. n ≤ 1024) }
    {
        self.console.answer(line, out)
    }
}
