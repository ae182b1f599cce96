// A plain model of an ordered set: the linear list, written down as simply as it goes.
use order::fault::SetFault;
use order::key::Key;
use std::alloc::{AllocError, Global};

#[derive(Drop)]
pub struct Model<K> {
    pub keys: Vec<K>,
    pub room: usize,
}

impl<K: Key> Model<K> {
    pub(crate) fn new(heap: Global, room: usize) -> Model<K> {
        Model {
            keys: Vec::new(heap),
            room,
        }
    }

    pub(crate) fn place_of(&self, key: K) -> Option<usize> {
        self.keys.iter().position(|other| *other == key)
    }

    // What the set is to answer, where there is memory for it.
    pub(crate) fn insert(
        &mut self,
        place: usize,
        key: K,
    ) -> Result<Result<(), SetFault>, AllocError> {
        if self.place_of(key).is_some() {
            return Ok(Err(SetFault::Present));
        }
        if place > self.keys.len() {
            return Ok(Err(SetFault::PastEnd));
        }
        if self.keys.len() >= self.room {
            return Ok(Err(SetFault::Full));
        }
        self.keys.insert(place, key)?;
        Ok(Ok(()))
    }

    pub(crate) fn insert_after(
        &mut self,
        before: K,
        key: K,
    ) -> Result<Result<(), SetFault>, AllocError> {
        if self.place_of(key).is_some() {
            return Ok(Err(SetFault::Present));
        }
        match self.place_of(before) {
            Some(place) if place < self.keys.len() => self.insert(place + 1, key),
            _ => Ok(Err(SetFault::NoPredecessor)),
        }
    }

    pub(crate) fn remove_at(&mut self, place: usize) -> Option<K> {
        if place < self.keys.len() {
            Some(self.keys.remove(place))
        } else {
            None
        }
    }

    pub(crate) fn remove(&mut self, key: K) -> Option<usize> {
        let place = self.place_of(key)?;
        let _ = self.remove_at(place);
        Some(place)
    }
}
