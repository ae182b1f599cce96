// The plain row: keys in sequence in a lent slice, which needs sameness only.
ghost use Rattle.std.specs.Prelude.{◌≡◌, ℕ, ◌+◌, ◌-◌, ◌<◌, ◌≤◌, min, true, false, length, take};
ghost use Rattle.std.specs.List.{insert, remove};
ghost use Rattle.order.specs.Deeds.{order_after};
ghost use Rattle.order.specs.Order.{At, Distinct, Found, vacant};
ghost use Rattle.order.specs.Plain.{laid, laid_lawful};

use crate::fault::SetFault;
use crate::key::Key;
use crate::set::OrderedSet;

// The most keys that a plain row takes.
const MOST: usize = 4096;

// The keys of a row: the first len of what was lent, since a kit has no heap.
#[derive(Drop)]
struct Lent<'a, K> {
    keys: &'a mut [K],
    len: u32,
    ghost within: { len ≤ length keys.now },
    ghost small: { len ≤ 4096 },
}

// An ordered set whose keys stand in sequence in a lent slice.
#[derive(Drop)]
pub struct PlainRow<'a, K> {
    lent: Lent<'a, K>,
    ghost apart: { ∥ Distinct (take lent.len lent.keys.now) ∥₁ },
}

impl<'a, K> PlainRow<'a, K> {
    // No key in the row yet; of a slice longer than the most that a row takes, the first ones count.
    pub fn new(keys: &'a mut [K]) -> PlainRow<'a, K>
        ensures starts { laid result.lent.keys.now result.lent.len ≡ vacant (min (length keys.old) 4096) }
        ensures keys { result.lent.keys.now ≡ keys.old }
    {
        PlainRow {
            lent: Lent { keys, len: 0 },
        }
    }
}

impl<'a, K: Key> Lent<'a, K> {
    fn room(&self) -> u32
        ensures { result ≡ min (length self.now.keys.now) 4096 }
    {
        self.keys.len().min(MOST) as u32
    }

    // The place of a key.
    fn find(&self, key: K) -> Option<u32>
        ensures { Found (take self.now.len self.now.keys.now) key result }
    {
        let order = &self.keys[..self.len as usize];
        let place = order.iter().position(|other| *other == key)?;
        Some(place as u32)
    }

    // What stands at a place.
    fn at(&self, place: u32) -> K
        requires { place < self.now.len }
        ensures { At (take self.now.len self.now.keys.now) place result }
    {
        self.keys[place as usize]
    }

    // Puts the key in at a place.
    fn put(&mut self, place: u32, key: K)
        requires place { place ≤ self.old.len }
        requires room { self.old.len < length self.old.keys.now }
        requires most { self.old.len < 4096 }
        ensures order { take self.new.len self.new.keys.now ≡ insert (take self.old.len self.old.keys.now) place key }
        ensures len { self.new.len ≡ self.old.len + 1 }
        ensures width { length self.new.keys.now ≡ length self.old.keys.now }
    {
        let at = place as usize;
        self.keys.copy_within(at..self.len as usize, at + 1);
        self.keys[at] = key;
        self.len += 1;
    }

    // Takes out what stands at a place.
    fn remove(&mut self, place: u32)
        requires { place < self.old.len }
        ensures order { take self.new.len self.new.keys.now ≡ remove (take self.old.len self.old.keys.now) place }
        ensures len { self.new.len + 1 ≡ self.old.len }
        ensures width { length self.new.keys.now ≡ length self.old.keys.now }
    {
        let at = place as usize;
        self.keys.copy_within(at + 1..self.len as usize, at);
        self.len -= 1;
    }
}

impl<'a, K: Key> OrderedSet<K> for PlainRow<'a, K> {
    ghost meaning = { λ s. laid s.lent.keys.now s.lent.len };

    ghost Body = { Self };

    ghost body = { λ s. s };

    ghost told = { λ ds s. order_after ds ≡ take s.lent.len s.lent.keys.now };

    ghost lawful = { λ set. laid_lawful set.lent.keys.now set.lent.len set.lent.within set.lent.small set.apart };

    ghost tells = { λ ds set t. t };

    fn length(&self) -> u32 {
        self.lent.len
    }

    fn capacity(&self) -> u32 {
        self.lent.room()
    }

    fn index_of(&mut self, key: K) -> Option<u32> {
        self.lent.find(key)
    }

    fn key_of(&mut self, place: u32) -> Option<K> {
        if place >= self.lent.len {
            return None;
        }
        Some(self.lent.at(place))
    }

    fn insert_head(&mut self, key: K, draw: u32) -> Result<(), SetFault> {
        self.insert_index(0, key, draw)
    }

    fn insert_after(&mut self, before: K, key: K, draw: u32) -> Result<(), SetFault> {
        if self.lent.find(key).is_some() {
            return Err(SetFault::Present);
        }
        let Some(place) = self.lent.find(before) else {
            return Err(SetFault::NoPredecessor);
        };
        self.insert_index(place + 1, key, draw)
    }

    fn insert_index(&mut self, place: u32, key: K, _draw: u32) -> Result<(), SetFault> {
        if self.lent.find(key).is_some() {
            return Err(SetFault::Present);
        }
        if place > self.lent.len {
            return Err(SetFault::PastEnd);
        }
        if self.lent.len == self.lent.room() {
            return Err(SetFault::Full);
        }
        self.lent.put(place, key);
        Ok(())
    }

    fn remove_key(&mut self, key: K) -> Option<u32> {
        let place = self.lent.find(key)?;
        self.lent.remove(place);
        Some(place)
    }

    fn remove_index(&mut self, place: u32) -> Option<K> {
        if place >= self.lent.len {
            return None;
        }
        let key = self.lent.at(place);
        self.lent.remove(place);
        Some(key)
    }
}
