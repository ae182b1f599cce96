// What is lent to a row list: keys beside links, and the index that finds the row of a key.
ghost use Rattle.std.specs.Prelude.{◌≡◌, ℕ, ◌+◌, ◌*◌, ◌<◌, ◌≤◌, true, false, List, [], length, slice_index_or};
ghost use Rattle.links.specs.Cells.{cells, levels};

use index::rows::Rows as KeyRows;
use links::{Row as LinkRow, Rows as LinkRows};
use order::key::{HashKey, Key};

// What is lent: keys beside links, and the index that finds a key's row.
#[derive(Drop)]
pub(crate) struct Lent<'a, K> {
    pub(crate) index: KeyRows<'a, K>,
    pub(crate) links: LinkRows<'a>,
    ghost few: { length index.keys.now ≤ 4096 },
    ghost sized: { length (levels (cells links)) ≡ length index.keys.now + 1 },
}

impl<'a, K: HashKey> Lent<'a, K> {
    ghost use Rattle.order.specs.Order.{At};
    ghost use Rattle.index.specs.Index.{Index, Row, Used, spot, tally};
    ghost use Rattle.skip_list.specs.Lent.{Chained, keys_of, kept, used, size};
    ghost use Rattle.skip_list.specs.Tower.{height, highs};

    // No key in n rows.
    pub(crate) fn new(
        keys: &'a mut [K],
        rows: &'a mut [LinkRow],
        slots: &'a mut [u16],
        n: usize,
    ) -> Lent<'a, K>
        requires few { n ≤ 4096 }
        requires keys { n ≤ length keys.old }
        requires rows { n ≤ length rows.old }
        requires slots { 2 * n ≤ length slots.old }
        ensures size { size result ≡ n }
        ensures used { used result ≡ [] }
        ensures highs { highs result ≡ [] }
        ensures height { height result ≡ 1 }
        ensures chains { (home : ℕ → ℕ) → Chained result home [] }
    {
        let keys = &mut keys[0..n];
        let rows = &mut rows[0..n];
        let slots = &mut slots[0..2 * n];
        Lent {
            index: KeyRows::new(keys, slots),
            links: LinkRows::new(rows),
        }
    }

    // Takes every key out.
    pub(crate) fn clear(&mut self)
        ensures size { size self.new ≡ size self.old }
        ensures used { used self.new ≡ [] }
        ensures highs { highs self.new ≡ [] }
        ensures height { height self.new ≡ 1 }
        ensures chains { (home : ℕ → ℕ) → Chained self.new home [] }
    {
        self.index.clear();
        self.links.clear();
    }

    // The row of a key.
    pub(crate) fn find(&self, key: &K) -> Option<u16>
        ensures row { (rows : List ℕ) → Index K.Key.identity K.HashKey.hashed (keys_of self.now) self.now.index.slots.now self.now.index.free rows → Row K.Key.identity (keys_of self.now) rows key.now result }
        ensures used { (home : ℕ → ℕ) (rows : List ℕ) → Chained self.now home rows → Used home (spot K.HashKey.hashed (size self.now) (K.Key.identity key.now)) rows result }
    {
        self.index.find(key)
    }

    // The place of a row of the order.
    pub(crate) fn place(&self, row: u16) -> u32
        requires { 0 < tally row (used self.now) }
        ensures { At (used self.now) result row }
    {
        self.links.index_of(row + 1)
    }

    // The key in a row.
    pub(crate) fn key_in(&self, row: u16) -> K
        requires { row < size self.now }
        ensures { slice_index_or (keys_of self.now) row result ≡ result }
    {
        self.index.keys[row as usize]
    }

    // The key at a place.
    pub(crate) fn key_at(&self, place: u32) -> K
        requires { place < self.now.links.len }
        ensures { At (kept self.now) place result }
    {
        let row = self.links.nth(place);
        self.key_in(row - 1)
    }

    // How many levels the head has.
    pub(crate) fn height(&self) -> u8
        ensures { result ≡ height self.now }
    {
        self.links.level_of(0)
    }

    pub(crate) fn room(&self) -> u32
        ensures { result ≡ size self.now }
    {
        self.index.keys.len() as u32
    }

    pub(crate) fn full(&self) -> bool
        ensures no { result ≡ false → self.now.index.free < size self.now }
        ensures yes { result ≡ true → size self.now ≤ self.now.index.free }
    {
        self.index.full()
    }
}
