// How a row comes in, level by level.
ghost use Rattle.std.specs.Prelude.{◌≡◌, ℕ, suc, ◌+◌, ◌<◌, List, [], ◌∷◌, length, take, drop};
ghost use Rattle.std.specs.List.{insert};
ghost use Rattle.links.specs.Cell.{laid, levels};
ghost use Rattle.links.specs.Ring.{Enters, Holds, Level, Only, Place, Ring, Sides, first, order, raised, turned};

use crate::{Grid, Link, Way};

impl<'a> Grid<'a> {
    /// Takes the row `new` into one level, between the nearest rows of that level on both sides of its place.
    pub(crate) fn thread(&mut self, level: u8, new: u16, pre: Link, suc: Link)
        requires level { level < 16 }
        requires sides { (xs : List ℕ) × ((ys : List ℕ) × Sides (laid self.old) level new pre suc xs ys) }
        ensures put { (xs ys : List ℕ) → Sides (laid self.old) level new pre suc xs ys → Level (laid self.old) level xs ys → Level (laid self.new) level xs (new ∷ ys) }
        ensures only { Only (laid self.old) (laid self.new) level }
    {
        if level < self.level_of(new) {
            self.set_both(
                level,
                pre.row,
                Link {
                    row: new,
                    count: pre.count,
                },
                suc.row,
                Link {
                    row: new,
                    count: suc.count,
                },
            );
            self.set_both(level, new, suc, new, pre);
        } else {
            let count = pre.count + suc.count;
            self.join(level, pre.row, suc.row, count);
        }
    }

    /// Takes the row `new`, which has its level, into every level at `count` steps from the head, from the top level down.
    pub(crate) fn enter(&mut self, count: u16, new: u16)
        requires { (xs : List ℕ) × ((ys : List ℕ) × (Place (laid self.old) (first xs) new xs ys × (count ≡ length xs + 1))) }
        ensures put { (xs ys : List ℕ) → Place (laid self.old) (first xs) new xs ys × (count ≡ length xs + 1) → Ring (laid self.new) xs (new ∷ ys) }
        ensures levels { levels (laid self.new) ≡ levels (laid self.old) }
    {
        let mut pre = Link { row: 0, count };
        for level in (0..self.level_of(0)).rev() {
            pre = self.approach(level, pre);
            let over = self.link(pre.row, Way::Ahead, level);
            let suc = Link {
                row: over.row,
                count: over.count + 1 - pre.count,
            };
            self.thread(level, new, pre, suc);
        }
    }

    /// Takes the row `new`, which has its level, into every level at the end, where the head's links back lead.
    pub(crate) fn append(&mut self, new: u16)
        requires { (xs : List ℕ) × Place (laid self.old) (first xs) new xs [] }
        ensures put { (xs : List ℕ) → Place (laid self.old) (first xs) new xs [] → Ring (laid self.new) xs (new ∷ []) }
        ensures levels { levels (laid self.new) ≡ levels (laid self.old) }
    {
        for level in 0..self.level_of(0) {
            let pre = self.link(0, Way::Back, level);
            self.thread(level, new, pre, Link { row: 0, count: 1 });
        }
    }

    /// Gives the row `row`, which is not in the order of `len` rows, its level, and the head no less, with links that lead round at the levels new to it.
    pub(crate) fn raise(&mut self, len: u32, row: u16, level: u8)
        requires holds { Holds (laid self.old) len }
        requires enters { (i : ℕ) × Enters (laid self.old) len i row level }
        ensures put { (i : ℕ) → Enters (laid self.old) len i row level → Place (laid self.new) (first (turned (take i (order (laid self.old) len)) [])) row (turned (take i (order (laid self.old) len)) []) (drop i (order (laid self.old) len)) }
        ensures levels { levels (laid self.new) ≡ raised (levels (laid self.old)) row level }
    {
        let height = self.level_of(0);
        let around = Link {
            row: 0,
            count: len as u16 + 1,
        };
        self.set_level(row, level);
        for fresh in height..level {
            self.set_both(fresh, 0, around, 0, around);
        }
        self.set_level(0, level.max(height));
    }
    /// Gives the row `row`, which is not in the order of `len` rows, its level, and takes it in at a place: at the end with no walk.
    pub(crate) fn insert(&mut self, len: u32, place: u32, row: u16, level: u8)
        requires holds { Holds (laid self.old) len }
        requires enters { Enters (laid self.old) len place row level }
        ensures ring { Ring (laid self.new) [] (insert (order (laid self.old) len) place row) }
        ensures levels { levels (laid self.new) ≡ raised (levels (laid self.old)) row level }
    {
        self.raise(len, row, level);
        if place == len {
            self.append(row);
        } else {
            self.enter(place as u16 + 1, row);
        }
    }
}
