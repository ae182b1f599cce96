// Rows by number: the head is row 0, and row k lies at place k - 1 of the lent slice.
ghost use Rattle.std.specs.Prelude.{◌≡◌, ◌<◌, length, slice_index};
ghost use Rattle.links.specs.Cell.{Wrote, laid, levels, view};
ghost use Rattle.links.specs.Ring.{Leveled, Pair};
ghost use Rattle.links.specs.Chain.{at};

use crate::{Grid, Link, Way};

impl<'a> Grid<'a> {
    pub(crate) fn level_of(&self, row: u16) -> u8
        requires { row < length (levels (laid self.now)) }
        ensures { result ≡ slice_index (levels (laid self.now)) row }
    {
        if row == 0 {
            self.head.level
        } else {
            self.rows[row as usize - 1].level
        }
    }

    pub(crate) fn set_level(&mut self, row: u16, level: u8)
        requires { row < length (levels (laid self.old)) }
        ensures { Leveled (laid self.old) (laid self.new) row level }
    {
        if row == 0 {
            self.head.level = level;
        } else {
            self.rows[row as usize - 1].level = level;
        }
    }

    pub(crate) fn link(&self, row: u16, way: Way, level: u8) -> Link
        requires row { row < length (levels (laid self.now)) }
        requires level { level < 16 }
        ensures { result ≡ at (view way level (laid self.now)) row }
    {
        if row == 0 {
            self.head.link(way, level)
        } else {
            let rows = &*self.rows;
            rows[row as usize - 1].link(way, level)
        }
    }

    pub(crate) fn set_link(&mut self, row: u16, way: Way, level: u8, link: Link)
        requires row { row < length (levels (laid self.old)) }
        requires level { level < 16 }
        ensures { Wrote (laid self.old) (laid self.new) row way level link }
    {
        if row == 0 {
            self.head.set_link(way, level, link);
        } else {
            self.rows[row as usize - 1].set_link(way, level, link);
        }
    }

    /// Writes both links that meet at a gap: that of `pre` ahead and that of `suc` back.
    pub(crate) fn set_both(&mut self, level: u8, pre: u16, ahead: Link, suc: u16, back: Link)
        requires level { level < 16 }
        requires pre { pre < length (levels (laid self.old)) }
        requires suc { suc < length (levels (laid self.old)) }
        ensures { Pair (laid self.old) (laid self.new) level pre ahead suc back }
    {
        self.set_link(pre, Way::Ahead, level, ahead);
        self.set_link(suc, Way::Back, level, back);
    }

    /// Joins two rows at one level: each link names the other row, with the same count.
    pub(crate) fn join(&mut self, level: u8, pre: u16, suc: u16, count: u16)
        requires level { level < 16 }
        requires pre { pre < length (levels (laid self.old)) }
        requires suc { suc < length (levels (laid self.old)) }
        ensures { Pair (laid self.old) (laid self.new) level pre (record { row = suc; count = count }) suc (record { row = pre; count = count }) }
    {
        self.set_both(
            level,
            pre,
            Link { row: suc, count },
            suc,
            Link { row: pre, count },
        );
    }
}
