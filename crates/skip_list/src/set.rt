// The row list is an ordered set.
ghost use Rattle.std.proofs.Common.{sym};
ghost use Rattle.skip_list.specs.Lent.{means};
ghost use Rattle.skip_list.specs.History.{Told};

use crate::list::SkipList;
use order::fault::SetFault;
use order::key::{HashKey, Key};
use order::set::OrderedSet;

impl<'a, K: HashKey> OrderedSet<K> for SkipList<'a, K> {
    ghost meaning = { λ s. means s.lent };

    ghost Body = { Self };

    ghost body = { λ s. s };

    ghost told = { λ ds s. Told ds s.lent };

    ghost lawful = { λ s. record { apart = s.sound.1; fits = s.fits } };

    ghost tells = { λ ds s told. sym told.order };

    fn length(&self) -> u32 {
        self.lent.links.len
    }

    fn capacity(&self) -> u32 {
        self.lent.room()
    }

    fn index_of(&mut self, key: K) -> Option<u32> {
        let row = self.lent.find(&key)?;
        Some(self.lent.place(row))
    }

    fn key_of(&mut self, place: u32) -> Option<K> {
        if place >= self.lent.links.len {
            return None;
        }
        Some(self.lent.key_at(place))
    }

    fn insert_head(&mut self, key: K, draw: u32) -> Result<(), SetFault> {
        self.insert_index(0, key, draw)
    }

    fn insert_after(&mut self, before: K, key: K, draw: u32) -> Result<(), SetFault> {
        if self.lent.find(&key).is_some() {
            return Err(SetFault::Present);
        }
        let Some(row) = self.lent.find(&before) else {
            return Err(SetFault::NoPredecessor);
        };
        let place = self.lent.place(row);
        self.put_absent(place + 1, key, draw)
    }

    fn insert_index(&mut self, place: u32, key: K, draw: u32) -> Result<(), SetFault> {
        if self.lent.find(&key).is_some() {
            return Err(SetFault::Present);
        }
        self.put_absent(place, key, draw)
    }

    fn remove_key(&mut self, key: K) -> Option<u32> {
        let row = self.lent.find(&key)?;
        Some(self.lent.take(row, &key))
    }

    fn remove_index(&mut self, place: u32) -> Option<K> {
        if place >= self.lent.links.len {
            return None;
        }
        Some(self.lent.take_at(place))
    }
}
