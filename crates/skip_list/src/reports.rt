// Reports of levels and links.
ghost use Rattle.std.specs.Prelude.{List};
ghost use Rattle.skip_list.specs.Lent.{kept};
ghost use Rattle.skip_list.specs.Tower.{HeadLinks, Leveled, Linked, LinksOf, height, highs};
ghost use Rattle.order.specs.Deeds.{Deed, order_after};
ghost use Rattle.skip_list.specs.History.{LevelTold, Told, height_after, levels_after};

use crate::fault::ListFault;
use crate::list::SkipList;
use crate::report::KeyLinks;
use order::key::{HashKey, Key};

impl<'a, K: HashKey> SkipList<'a, K> {
    // The level of a key, or none.
    pub fn level_report(&self, key: K) -> Option<u8>
        ensures level { Leveled (kept self.now.lent) (highs self.now.lent) key result }
        ensures told { (ds : List (Deed K)) → Told ds self.now.lent → LevelTold ds key result }
    {
        let row = self.lent.find(&key)?;
        Some(self.lent.level_at(row))
    }

    // The links ahead and back, at one level, of a key or of the head.
    pub fn link_report(&self, of: Option<K>, level: u8) -> Result<KeyLinks<K>, ListFault>
        ensures links { Linked (kept self.now.lent) (highs self.now.lent) (height self.now.lent) of level result }
        ensures told { (ds : List (Deed K)) → Told ds self.now.lent → Linked (order_after ds) (levels_after ds) (height_after ds) of level result }
    {
        match of {
            None => self.head_links(level),
            Some(key) => self.key_links(key, level),
        }
    }

    fn head_links(&self, level: u8) -> Result<KeyLinks<K>, ListFault>
        ensures { HeadLinks (kept self.now.lent) (highs self.now.lent) (height self.now.lent) level result }
    {
        if level >= self.lent.height() {
            return Err(ListFault::NoLevel);
        }
        Ok(self.lent.head_links(level))
    }

    fn key_links(&self, key: K, level: u8) -> Result<KeyLinks<K>, ListFault>
        ensures { LinksOf (kept self.now.lent) (highs self.now.lent) key level result }
    {
        let Some(row) = self.lent.find(&key) else {
            return Err(ListFault::NoKey);
        };
        if level >= self.lent.level_at(row) {
            return Err(ListFault::NoLevel);
        }
        Ok(self.lent.links_at(row, level))
    }
}
