// How a row goes out, level by level.
ghost use Rattle.std.specs.Prelude.{◌≡◌, ℕ, ◌+◌, ◌<◌, List, ◌∷◌, length};
ghost use Rattle.links.specs.Cell.{laid, levels};
ghost use Rattle.links.specs.Ring.{Level, Only, Onto, Ring, Sides, Standing};
ghost use Rattle.links.specs.Chain.{nearest, reach};

use crate::{Grid, Link, Way};

impl<'a> Grid<'a> {
    /// Takes a row out of one level, given the nearest rows of the level on both sides of it: their links join.
    pub(crate) fn unthread(&mut self, level: u8, pre: Link, suc: Link)
        requires level { level < 16 }
        requires sides { (n : ℕ) × ((xs : List ℕ) × ((ys : List ℕ) × Sides (laid self.old) level n pre suc xs ys)) }
        ensures put { (n : ℕ) (xs ys : List ℕ) → Sides (laid self.old) level n pre suc xs ys → Level (laid self.old) level xs (n ∷ ys) → Level (laid self.new) level xs ys }
        ensures only { Only (laid self.old) (laid self.new) level }
    {
        let count = pre.count + suc.count - 1;
        self.join(level, pre.row, suc.row, count);
    }

    /// The nearest row of `level` beyond the row at a place, from the link over or onto that row.
    pub(crate) fn beyond(&self, level: u8, pre: Link, over: Link) -> Link
        requires level { level < 16 }
        requires onto { (n : ℕ) × ((xs : List ℕ) × ((ys : List ℕ) × Onto (laid self.now) level n pre over xs ys)) }
        ensures { (n : ℕ) (xs ys : List ℕ) → Onto (laid self.now) level n pre over xs ys → result ≡ nearest (reach (levels (laid self.now)) level) ys }
    {
        if over.count == pre.count {
            self.link(over.row, Way::Ahead, level)
        } else {
            Link {
                row: over.row,
                count: over.count - pre.count,
            }
        }
    }

    /// Takes the row at `count` steps from the head out of every level, from the top level down, and says which it was.
    pub(crate) fn leave(&mut self, count: u16) -> u16
        requires { (n : ℕ) × ((xs : List ℕ) × ((ys : List ℕ) × (Standing (laid self.old) xs n ys × (count ≡ length xs + 1)))) }
        ensures row { (n : ℕ) (xs ys : List ℕ) → Standing (laid self.old) xs n ys × (count ≡ length xs + 1) → result ≡ n }
        ensures put { (n : ℕ) (xs ys : List ℕ) → Standing (laid self.old) xs n ys × (count ≡ length xs + 1) → Ring (laid self.new) xs ys }
        ensures levels { levels (laid self.new) ≡ levels (laid self.old) }
    {
        let mut pre = Link { row: 0, count };
        let mut row = 0u16;
        for level in (0..self.level_of(0)).rev() {
            pre = self.approach(level, pre);
            let over = self.link(pre.row, Way::Ahead, level);
            row = over.row;
            let suc = self.beyond(level, pre, over);
            self.unthread(level, pre, suc);
        }
        row
    }

    /// Takes `row` out of every level, and says at which place it stood.
    pub(crate) fn remove(&mut self, row: u16) -> u32
        requires { (xs : List ℕ) × ((ys : List ℕ) × Standing (laid self.old) xs row ys) }
        ensures place { (xs ys : List ℕ) → Standing (laid self.old) xs row ys → result ≡ length xs }
        ensures put { (xs ys : List ℕ) → Standing (laid self.old) xs row ys → Ring (laid self.new) xs ys }
        ensures levels { levels (laid self.new) ≡ levels (laid self.old) }
    {
        let mut pre = self.link(row, Way::Back, 0);
        for level in 0..self.level_of(0) {
            let over = self.link(pre.row, Way::Ahead, level);
            let suc = self.beyond(level, pre, over);
            self.unthread(level, pre, suc);
            pre = self.climb(Way::Back, level, pre);
        }
        pre.count as u32 - 1
    }
}
