// Walks over the rows: by row, back to the head, and by place, down from its top level.
ghost use Rattle.std.specs.Prelude.{◌≡◌, ℕ, ◌+◌, ◌<◌, List, ◌∷◌, length};
ghost use Rattle.links.specs.Cell.{laid, levels, view};
ghost use Rattle.links.specs.Ring.{Ring, Standing};
ghost use Rattle.links.specs.declared.Way.TheVariants.{Ahead};
ghost use Rattle.links.specs.Chain.{nearest, reach, Leads, Nears};

use crate::{Grid, Link, Way};

impl<'a> Grid<'a> {
    /// From the nearest row that has a link of `level`, on to the nearest that has one of the level above.
    pub(crate) fn climb(&self, way: Way, level: u8, from: Link) -> Link
        requires level { level < 16 }
        requires leads { (far : List ℕ) × Leads (levels (laid self.now)) (view way level (laid self.now)) level far from }
        ensures { (far : List ℕ) → Leads (levels (laid self.now)) (view way level (laid self.now)) level far from → result ≡ nearest (reach (levels (laid self.now)) (level + 1)) far }
    {
        let mut link = from;
        while link.row != 0 && self.level_of(link.row) <= level + 1 {
            let step = self.link(link.row, way, level);
            link = Link {
                row: step.row,
                count: link.count + step.count,
            };
        }
        link
    }

    /// From a row behind a place, on to the last one behind it that has a link of `level`.
    pub(crate) fn approach(&self, level: u8, from: Link) -> Link
        requires level { level < 16 }
        requires nears { (xs : List ℕ) × ((ys : List ℕ) × Nears (levels (laid self.now)) (view Ahead level (laid self.now)) level xs ys from) }
        ensures { (xs ys : List ℕ) → Nears (levels (laid self.now)) (view Ahead level (laid self.now)) level xs ys from → result ≡ nearest (reach (levels (laid self.now)) level) xs }
    {
        let mut pre = from;
        let mut over = self.link(pre.row, Way::Ahead, level);
        while over.count < pre.count {
            pre = Link {
                row: over.row,
                count: pre.count - over.count,
            };
            over = self.link(pre.row, Way::Ahead, level);
        }
        pre
    }

    /// The place of `row`: its top links back to the head, added up.
    pub(crate) fn index_of(&self, row: u16) -> u32
        requires { (xs : List ℕ) × ((ys : List ℕ) × Standing (laid self.now) xs row ys) }
        ensures { (xs ys : List ℕ) → Ring (laid self.now) xs (row ∷ ys) → result ≡ length xs }
    {
        let mut here = row;
        let mut count = 0u32;
        while here != 0 {
            let link = self.link(here, Way::Back, self.level_of(here) - 1);
            count += link.count as u32;
            here = link.row;
        }
        count - 1
    }

    /// The row at a place: down from the head's top level, by counts.
    pub(crate) fn row_at(&self, place: u32) -> u16
        requires { (xs : List ℕ) × ((r : ℕ) × ((ys : List ℕ) × (Standing (laid self.now) xs r ys × (place ≡ length xs)))) }
        ensures { (xs : List ℕ) (r : ℕ) (ys : List ℕ) → Ring (laid self.now) xs (r ∷ ys) → place ≡ length xs → result ≡ r }
    {
        let mut pre = Link {
            row: 0,
            count: place as u16 + 1,
        };
        for level in (0..self.level_of(0)).rev() {
            pre = self.approach(level, pre);
            let over = self.link(pre.row, Way::Ahead, level);
            if over.count == pre.count {
                return over.row;
            }
        }
        0
    }
}
