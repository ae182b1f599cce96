// The row list: its type, and how it begins.
ghost use Rattle.std.specs.Prelude.{◌≡◌, ◌≤◌, [], length};
ghost use Rattle.skip_list.specs.Lent.{Sound, sound_prop, kept, size};

use crate::lent::Lent;
use crate::memory::usable_rows;
use links::Row;
use order::key::{HashKey, Key};

// An ordered set over lent rows: links keep the sequence, and an index finds a key's row.
#[derive(Drop)]
pub struct SkipList<'a, K: HashKey> {
    pub(crate) lent: Lent<'a, K>,
    ghost sound: { Sound lent K.Key.identity K.HashKey.hashed } by { sound_prop K.Key.identity K.HashKey.hashed lent },
    ghost fits: { length (kept lent) ≤ size lent },
}

impl<'a, K: HashKey> SkipList<'a, K> {
    ghost use Rattle.skip_list.specs.Memory.{Usable};
    ghost use Rattle.skip_list.specs.History.{Told};

    // An empty list; over memory that fails the check it has no rows. A struct for the three slices would be made only to be taken apart.
    pub fn new(keys: &'a mut [K], rows: &'a mut [Row], slots: &'a mut [u16]) -> SkipList<'a, K>
        ensures empty { kept result.lent ≡ [] }
        ensures room { Usable (length keys.old) (length rows.old) (length slots.old) (size result.lent) }
        ensures told { Told [] result.lent }
    {
        let n = usable_rows(keys.len(), rows.len(), slots.len());
        let lent = Lent::new(keys, rows, slots, n);
        SkipList { lent }
    }

    // Takes every key out, and begins anew.
    pub fn clear(&mut self)
        ensures empty { kept self.new.lent ≡ [] }
        ensures room { size self.new.lent ≡ size self.old.lent }
        ensures told { Told [] self.new.lent }
    {
        self.lent.clear();
    }
}
