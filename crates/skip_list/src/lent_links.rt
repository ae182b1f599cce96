// Levels and links by row, told as levels and links of keys.
ghost use Rattle.std.specs.Prelude.{◌≡◌, ℕ, ◌<◌, ◌≤◌, slice_index};
ghost use Rattle.order.specs.Order.{At, Stands};
ghost use Rattle.skip_list.specs.Lent.{keys_of, kept, used, size};
ghost use Rattle.skip_list.specs.Tower.{head_links, height, highs, key_link, links_at};

use crate::lent::Lent;
use crate::report::{KeyLink, KeyLinks};
use links::{Link, Way};
use order::key::{HashKey, Key};

impl<'a, K: HashKey> Lent<'a, K> {
    // A link between rows, as one between keys.
    fn named(&self, link: Link) -> KeyLink<K>
        requires { link.row ≤ size self.now }
        ensures { result ≡ key_link (keys_of self.now) link }
    {
        if link.row == 0 {
            return KeyLink {
                key: None,
                count: link.count,
            };
        }
        let key = self.key_in(link.row - 1);
        KeyLink {
            key: Some(key),
            count: link.count,
        }
    }

    // The head's links at a level.
    pub(crate) fn head_links(&self, level: u8) -> KeyLinks<K>
        requires { level < height self.now }
        ensures { result ≡ head_links (kept self.now) (highs self.now) level }
    {
        let ahead = self.links.link(0, Way::Ahead, level);
        KeyLinks {
            ahead: self.named(ahead),
            back: KeyLink {
                key: None,
                count: 0,
            },
        }
    }

    // The level of a row of the order.
    pub(crate) fn level_at(&self, row: u16) -> u8
        requires { Stands (used self.now) row }
        ensures { (i : ℕ) → At (used self.now) i row → result ≡ slice_index (highs self.now) i }
    {
        self.links.level_of(row + 1)
    }

    // The links at a level of a row of the order.
    pub(crate) fn links_at(&self, row: u16, level: u8) -> KeyLinks<K>
        requires { (i : ℕ) × At (used self.now) i row × (level < slice_index (highs self.now) i) }
        ensures { (i : ℕ) → At (used self.now) i row → level < slice_index (highs self.now) i → result ≡ links_at (kept self.now) (highs self.now) level i }
    {
        let ahead = self.links.link(row + 1, Way::Ahead, level);
        let back = self.links.link(row + 1, Way::Back, level);
        KeyLinks {
            ahead: self.named(ahead),
            back: self.named(back),
        }
    }
}
