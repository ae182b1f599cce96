// The interface: an order of distinct keys, and a capacity that no call changes.
ghost use Rattle.std.specs.Prelude.{◌≡◌, ℕ, true, false, length, is_some, is_ok, List};
ghost use Rattle.order.specs.Deeds.{Deed, Next, after_at, after_key, after_put, order_after, put};
ghost use Rattle.order.specs.Order.{Meaning, Lawful, Finds, Gives, InsertsAt, InsertsAfter, RemovesKey, RemovesAt};

use crate::fault::SetFault;
use crate::key::Key;

// A list of distinct keys, and a capacity that no call changes. Its calls, each insertion with its draw, are those that the rules name.
pub trait OrderedSet<K: Key> {
    ghost meaning: { Self → Meaning K };

    // what is kept beside what a last place remembers: a question or a refusal leaves it as it was
    ghost Body: { Type 0 };

    ghost body: { Self → Body };

    // what it tells of the deeds that built it: at least their order
    ghost told: { List (Deed K) → Body → Type 0 };

    fn length(&self) -> u32
        ensures { result ≡ length (meaning self.now).order };

    fn capacity(&self) -> u32
        ensures { result ≡ (meaning self.now).room };

    fn index_of(&mut self, key: K) -> Option<u32>
        ensures finds { Finds (meaning self.old) key result (meaning self.new) }
        ensures kept { body self.new ≡ body self.old };

    fn key_of(&mut self, place: u32) -> Option<K>
        ensures gives { Gives (meaning self.old) place result (meaning self.new) }
        ensures kept { body self.new ≡ body self.old };

    fn insert_head(&mut self, key: K, draw: u32) -> Result<(), SetFault>
        ensures inserts { InsertsAt (meaning self.old) 0 key result (meaning self.new) }
        ensures kept { is_ok result ≡ false → body self.new ≡ body self.old }
        ensures told { (ds : List (Deed K)) → told ds (body self.old) → told (after_put result (put 0 key draw) ds) (body self.new) };

    fn insert_after(&mut self, before: K, key: K, draw: u32) -> Result<(), SetFault>
        ensures inserts { InsertsAfter (meaning self.old) before key result (meaning self.new) }
        ensures kept { is_ok result ≡ false → body self.new ≡ body self.old }
        ensures told { (ds : List (Deed K)) → told ds (body self.old) → Next told result before key draw ds (body self.new) };

    fn insert_index(&mut self, place: u32, key: K, draw: u32) -> Result<(), SetFault>
        ensures inserts { InsertsAt (meaning self.old) place key result (meaning self.new) }
        ensures kept { is_ok result ≡ false → body self.new ≡ body self.old }
        ensures told { (ds : List (Deed K)) → told ds (body self.old) → told (after_put result (put place key draw) ds) (body self.new) };

    fn remove_key(&mut self, key: K) -> Option<u32>
        ensures removes { RemovesKey (meaning self.old) key result (meaning self.new) }
        ensures kept { is_some result ≡ false → body self.new ≡ body self.old }
        ensures told { (ds : List (Deed K)) → told ds (body self.old) → told (after_key result ds) (body self.new) };

    fn remove_index(&mut self, place: u32) -> Option<K>
        ensures removes { RemovesAt (meaning self.old) place result (meaning self.new) }
        ensures kept { is_some result ≡ false → body self.new ≡ body self.old }
        ensures told { (ds : List (Deed K)) → told ds (body self.old) → told (after_at result place ds) (body self.new) };

    // no key stands twice, and no more stand than there is room for
    ghost lawful: { (set : Self) → Lawful (meaning set) };

    ghost tells: { (ds : List (Deed K)) (set : Self) → told ds (body set) → order_after ds ≡ (meaning set).order };
}
