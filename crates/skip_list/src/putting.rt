// How an absent key comes into a row list.
ghost use Rattle.std.specs.Prelude.{◌≡◌, false, List, is_ok};
ghost use Rattle.order.specs.Order.{Absent, InsertsAt};
ghost use Rattle.order.specs.Deeds.{Deed, after_put, put};
ghost use Rattle.skip_list.specs.Lent.{kept, means};
ghost use Rattle.skip_list.specs.History.{Told};

use crate::level::level_of;
use crate::list::SkipList;
use order::fault::SetFault;
use order::key::{HashKey, Key};

impl<'a, K: HashKey> SkipList<'a, K> {
    // Puts a key that is not present in at a place.
    pub(crate) fn put_absent(&mut self, place: u32, key: K, draw: u32) -> Result<(), SetFault>
        requires { Absent (kept self.old.lent) key }
        ensures inserts { InsertsAt (means self.old.lent) place key result (means self.new.lent) }
        ensures kept { is_ok result ≡ false → self.new ≡ self.old }
        ensures told { (ds : List (Deed K)) → Told ds self.old.lent → Told (after_put result (put place key draw) ds) self.new.lent }
    {
        if place > self.lent.links.len {
            return Err(SetFault::PastEnd);
        }
        if self.lent.full() {
            return Err(SetFault::Full);
        }
        let level = level_of(draw);
        self.lent.put(place, key, level);
        Ok(())
    }
}
