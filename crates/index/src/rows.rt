// The chains of rows over the lent slots: how a key's row is found, put in and taken out.
ghost use Rattle.std.specs.Prelude.{◌≡◌, ℕ, ◌+◌, ◌^◌, ◌<◌, ◌≤◌, true, false, List, [], ◌∷◌, length, ◌≢◌, slice_index, slice_set};
ghost use Rattle.index.specs.Index.{Index, Indexed, Leads, Row, Run, Used, spot, tally};

use order::key::{HashKey, Key};

// The lent keys beside their slots, and the first free row.
// Rows are named by number, since the memory is lent: of 2 * n slots the first n are the heads of the chains, the others lead on from a
// row, and a number of n or more ends a chain.
#[derive(Drop)]
pub struct Rows<'a, K> {
    pub keys: &'a mut [K],
    pub slots: &'a mut [u16],
    pub free: u16,
    ghost small: { length keys.now < 2 ^ 16 },
    ghost twice: { length slots.now ≡ length keys.now + length keys.now },
}

impl<'a, K: HashKey> Rows<'a, K> {
    // Lent keys and slots with every row free.
    pub fn new(keys: &'a mut [K], slots: &'a mut [u16]) -> Rows<'a, K>
        requires small { length keys.old < 2 ^ 16 }
        requires twice { length slots.old ≡ length keys.old + length keys.old }
        ensures keys { result.keys.now ≡ keys.old }
        ensures free { result.free ≡ 0 }
        ensures chains { (home : ℕ → ℕ) → Indexed home result.slots.now (length keys.old) 0 [] }
    {
        let mut rows = Rows {
            keys,
            slots,
            free: 0,
        };
        rows.clear();
        rows
    }

    pub fn full(&self) -> bool
        ensures no { result ≡ false → self.now.free < length self.now.keys.now }
        ensures yes { result ≡ true → length self.now.keys.now ≤ self.now.free }
    {
        self.free as usize >= self.keys.len()
    }

    // Makes every row free.
    pub fn clear(&mut self)
        ensures keys { self.new.keys.now ≡ self.old.keys.now }
        ensures slots { length self.new.slots.now ≡ length self.old.slots.now }
        ensures free { self.new.free ≡ 0 }
        ensures chains { (home : ℕ → ℕ) → Indexed home self.new.slots.now (length self.old.keys.now) self.new.free [] }
    {
        let n = self.keys.len();
        let slots = &mut *self.slots;
        let (heads, onward) = slots.split_at_mut(n);
        heads.fill(n as u16);
        for (row, slot) in onward.iter_mut().enumerate() {
            *slot = row as u16 + 1;
        }
        self.free = 0;
    }

    // The head of the chain for a key.
    fn head(&self, key: &K) -> usize
        requires { 0 < length self.now.keys.now }
        ensures spot { result ≡ spot K.HashKey.hashed (length self.now.keys.now) (K.Key.identity key.now) }
        ensures low { result < length self.now.keys.now }
    {
        (key.hash() % self.keys.len() as u32) as usize
    }

    // The row that holds a key.
    pub fn find(&self, key: &K) -> Option<u16>
        ensures row { (rows : List ℕ) → Index K.Key.identity K.HashKey.hashed self.now.keys.now self.now.slots.now self.now.free rows → Row K.Key.identity self.now.keys.now rows key.now result }
        ensures used { (home : ℕ → ℕ) (rows : List ℕ) → Indexed home self.now.slots.now (length self.now.keys.now) self.now.free rows → Used home (spot K.HashKey.hashed (length self.now.keys.now) (K.Key.identity key.now)) rows result }
    {
        let keys = &*self.keys;
        let n = keys.len();
        if n == 0 {
            return None;
        }
        let mut row = self.slots[self.head(key)];
        // No index is counted: a chain has at most n rows, and the range says so.
        for _turn in 0..n {
            let at = row as usize;
            if at >= n {
                return None;
            }
            if keys[at] == *key {
                return Some(row);
            }
            row = self.slots[n + at];
        }
        None
    }

    // Puts the key into the first free row, and that row into the key's chain.
    pub fn link(&mut self, key: K)
        requires { self.old.free < length self.old.keys.now }
        ensures keys { self.new.keys.now ≡ slice_set self.old.keys.now self.old.free key }
        ensures slots { length self.new.slots.now ≡ length self.old.slots.now }
        ensures chains { (home after : ℕ → ℕ) (rows : List ℕ) → after self.old.free ≡ spot K.HashKey.hashed (length self.old.keys.now) (K.Key.identity key) → ((k : ℕ) → (k ≢ self.old.free) → after k ≡ home k) → Indexed home self.old.slots.now (length self.old.keys.now) self.old.free rows → Indexed after self.new.slots.now (length self.old.keys.now) self.new.free (self.old.free ∷ rows) }
    {
        let row = self.free;
        let head = self.head(&key);
        let on = self.keys.len() + row as usize;
        self.free = self.slots[on];
        self.slots[on] = self.slots[head];
        self.slots[head] = row;
        self.keys[row as usize] = key;
    }

    // The slot that leads to a row, from the head of its chain on.
    fn leading_to(&self, head: usize, row: u16) -> usize
        requires { head < length self.now.keys.now }
        ensures low { result < length self.now.keys.now + length self.now.keys.now }
        ensures leads { (trail : List ℕ) → Run self.now.slots.now (length self.now.keys.now) (slice_index self.now.slots.now head) trail → 0 < tally row trail → length trail ≤ length self.now.keys.now → Leads self.now.slots.now (length self.now.keys.now) head row trail result }
    {
        let n = self.keys.len();
        let mut at = head;
        // No index is counted: a chain has at most n rows, and the range says so.
        for _turn in 0..n {
            let here = self.slots[at];
            if here == row || here as usize >= n {
                return at;
            }
            at = n + here as usize;
        }
        at
    }

    // Takes a row out of the key's chain, and makes it the first free row.
    pub fn unlink(&mut self, row: u16, key: &K)
        requires { row < length self.old.keys.now }
        ensures keys { self.new.keys.now ≡ self.old.keys.now }
        ensures slots { length self.new.slots.now ≡ length self.old.slots.now }
        ensures chains { (home : ℕ → ℕ) (rows : List ℕ) → home row ≡ spot K.HashKey.hashed (length self.old.keys.now) (K.Key.identity key.now) → Indexed home self.old.slots.now (length self.old.keys.now) self.old.free (row ∷ rows) → Indexed home self.new.slots.now (length self.old.keys.now) self.new.free rows }
    {
        let free = self.free;
        let on = self.keys.len() + row as usize;
        let at = self.leading_to(self.head(key), row);
        self.slots[at] = self.slots[on];
        self.slots[on] = free;
        self.free = row;
    }
}
