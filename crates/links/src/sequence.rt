// Rows in an order: each change leaves every level right.
ghost use Rattle.std.specs.Prelude.{◌≡◌, ℕ, ◌+◌, ◌<◌, [], length, slice_index};
ghost use Rattle.std.specs.List.{insert, remove};

use crate::{Grid, Link, Row, Rows, Way};

impl<'a> Rows<'a> {
    ghost use Rattle.links.specs.Cells.{cells, levels, sequence, view};
    ghost use Rattle.links.specs.Ring.{Enters, Stands, raised};
    ghost use Rattle.links.specs.Chain.{at};

    /// No row in the order: at every level the head's links lead round to itself.
    pub fn new(rows: &'a mut [Row]) -> Rows<'a>
        ensures empty { sequence result ≡ [] }
        ensures len { result.len ≡ 0 }
        ensures sized { length (levels (cells result)) ≡ length rows.old + 1 }
        ensures height { slice_index (levels (cells result)) 0 ≡ 1 }
    {
        let grid = Grid {
            rows,
            head: Row::around(),
        };
        Rows { grid, len: 0 }
    }

    /// Takes every row out of the order.
    pub fn clear(&mut self)
        ensures empty { sequence self.new ≡ [] }
        ensures len { self.new.len ≡ 0 }
        ensures sized { length (levels (cells self.new)) ≡ length (levels (cells self.old)) }
        ensures height { slice_index (levels (cells self.new)) 0 ≡ 1 }
    {
        self.grid.head = Row::around();
        self.len = 0;
    }

    /// The level of a row: the head is row 0, and row k lies at place k - 1 of the slice.
    pub fn level_of(&self, row: u16) -> u8
        requires { row < length (levels (cells self.now)) }
        ensures { result ≡ slice_index (levels (cells self.now)) row }
    {
        self.grid.level_of(row)
    }

    pub fn link(&self, row: u16, way: Way, level: u8) -> Link
        requires row { row < length (levels (cells self.now)) }
        requires level { level < 16 }
        ensures { result ≡ at (view way level (cells self.now)) row }
    {
        self.grid.link(row, way, level)
    }

    /// The place of a row of the order.
    pub fn index_of(&self, row: u16) -> u32
        requires { (i : ℕ) × Stands (cells self.now) self.now.len i row }
        ensures { (i : ℕ) → Stands (cells self.now) self.now.len i row → result ≡ i }
    {
        self.grid.index_of(row)
    }

    /// The row at a place of the order.
    pub fn nth(&self, place: u32) -> u16
        requires { place < self.now.len }
        ensures row { result ≡ slice_index (sequence self.now) place }
        ensures low { 0 < result }
        ensures high { result < length (levels (cells self.now)) }
    {
        self.grid.row_at(place)
    }

    /// Gives the row `row`, which is not in the order, its level, and puts it in at a place: at the end with no walk.
    pub fn put(&mut self, place: u32, row: u16, level: u8)
        requires { Enters (cells self.old) self.old.len place row level }
        ensures order { sequence self.new ≡ insert (sequence self.old) place row }
        ensures levels { levels (cells self.new) ≡ raised (levels (cells self.old)) row level }
        ensures len { self.new.len ≡ self.old.len + 1 }
    {
        self.grid.insert(self.len, place, row, level);
        self.len += 1;
    }

    /// Takes out the row at a place, and says which it was.
    pub fn remove_at(&mut self, place: u32) -> u16
        requires { place < self.old.len }
        ensures row { result ≡ slice_index (sequence self.old) place }
        ensures order { sequence self.new ≡ remove (sequence self.old) place }
        ensures levels { levels (cells self.new) ≡ levels (cells self.old) }
        ensures len { self.new.len + 1 ≡ self.old.len }
    {
        let row = self.grid.leave(place as u16 + 1);
        self.len -= 1;
        row
    }

    /// Takes out a row of the order, and says at which place it stood.
    pub fn remove_row(&mut self, row: u16) -> u32
        requires { (i : ℕ) × Stands (cells self.old) self.old.len i row }
        ensures place { (i : ℕ) → Stands (cells self.old) self.old.len i row → result ≡ i }
        ensures order { (i : ℕ) → Stands (cells self.old) self.old.len i row → sequence self.new ≡ remove (sequence self.old) i }
        ensures levels { levels (cells self.new) ≡ levels (cells self.old) }
        ensures len { self.new.len + 1 ≡ self.old.len }
    {
        let place = self.grid.remove(row);
        self.len -= 1;
        place
    }
}
