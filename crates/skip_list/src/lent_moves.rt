// How a key comes into the lent rows, and how it leaves them.
ghost use Rattle.std.specs.Prelude.{◌≡◌, ℕ, ◌<◌, max, ◌≢◌, slice_set};
ghost use Rattle.std.specs.List.{insert, remove};
ghost use Rattle.order.specs.Order.{At};
ghost use Rattle.index.specs.Index.{spot, tally};
ghost use Rattle.skip_list.specs.Lent.{Chained, Enters, keys_of, kept, used, size};
ghost use Rattle.skip_list.specs.Tower.{Taken, height, highs};

use crate::lent::Lent;
use order::key::{HashKey, Key};

impl<'a, K: HashKey> Lent<'a, K> {
    // Puts the key into the first free row, and that row in at a place.
    pub(crate) fn put(&mut self, place: u32, key: K, level: u8)
        requires { Enters self.old place level }
        ensures keys { keys_of self.new ≡ slice_set (keys_of self.old) self.old.index.free key }
        ensures used { used self.new ≡ insert (used self.old) place self.old.index.free }
        ensures kept { kept self.new ≡ insert (kept self.old) place key }
        ensures highs { highs self.new ≡ insert (highs self.old) place level }
        ensures height { height self.new ≡ max level (height self.old) }
        ensures chains { (home after : ℕ → ℕ) → after self.old.index.free ≡ spot K.HashKey.hashed (size self.old) (K.Key.identity key) → ((k : ℕ) → (k ≢ self.old.index.free) → after k ≡ home k) → Chained self.old home (used self.old) → Chained self.new after (used self.new) }
    {
        let row = self.index.free;
        self.index.link(key);
        self.links.put(place, row + 1, level);
    }

    // Takes out a row of the order, which holds the key, and says at which place it stood.
    pub(crate) fn take(&mut self, row: u16, key: &K) -> u32
        requires { 0 < tally row (used self.old) }
        ensures place { At (used self.old) result row }
        ensures keys { keys_of self.new ≡ keys_of self.old }
        ensures kept { kept self.new ≡ remove (kept self.old) result }
        ensures highs { highs self.new ≡ remove (highs self.old) result }
        ensures height { height self.new ≡ height self.old }
        ensures chains { (home : ℕ → ℕ) → home row ≡ spot K.HashKey.hashed (size self.old) (K.Key.identity key.now) → Chained self.old home (used self.old) → Chained self.new home (used self.new) }
    {
        self.index.unlink(row, key);
        self.links.remove_row(row + 1)
    }

    // Takes out the row at a place, and says which key it held.
    pub(crate) fn take_at(&mut self, place: u32) -> K
        requires { place < self.old.links.len }
        ensures taken { Taken self.old place result self.new }
        ensures chains { (home : ℕ → ℕ) → ((row : ℕ) → At (used self.old) place row → home row ≡ spot K.HashKey.hashed (size self.old) (K.Key.identity result)) → Chained self.old home (used self.old) → Chained self.new home (used self.new) }
    {
        let row = self.links.remove_at(place) - 1;
        let key = self.key_in(row);
        self.index.unlink(row, &key);
        key
    }
}
