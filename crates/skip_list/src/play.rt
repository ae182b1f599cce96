// Scripts of calls on a row list, and the law that they obey.
ghost use Rattle.std.specs.Prelude.{◌≡◌, List, map, length};
ghost use Rattle.skip_list.specs.Lent.{size};
ghost use Rattle.skip_list.specs.Memory.{Usable};
ghost use Rattle.order.specs.Deeds.{Deed};
ghost use Rattle.skip_list.specs.History.{Told};
ghost use Rattle.skip_list.specs.Play.{Answered, Carries, Played, Runs, called};

use crate::call::{Answer, Call, Turn};
use crate::list::SkipList;
use layers::above::splice;
use links::Row;
use order::key::{HashKey, Key};
use order::set::OrderedSet;

impl<'a, K: HashKey> SkipList<'a, K> {
    // Carries out a call.
    pub fn answer<'b>(&mut self, call: &Call<'b, K>) -> Answer<K>
        ensures told { (ds : List (Deed K)) → Told ds self.old.lent → Carries ds self.old.lent call.now result self.new.lent }
    {
        match *call {
            Call::InsertHead { key, draw } => Answer::Put(self.insert_head(key, draw)),
            Call::InsertAfter { before, key, draw } => Answer::Put(self.insert_after(
                before, key, draw,
            )),
            Call::InsertIndex { place, key, draw } => Answer::Put(self.insert_index(
                place, key, draw,
            )),
            Call::Splice { place, keys, draws } => Answer::Spliced(splice(
                self, place, keys, draws,
            )),
            Call::RemoveKey { key } => Answer::Place(self.remove_key(key)),
            Call::RemoveIndex { place } => Answer::Key(self.remove_index(place)),
            Call::IndexOf { key } => Answer::Place(self.index_of(key)),
            Call::KeyOf { place } => Answer::Key(self.key_of(place)),
        }
    }

    // Carries out the call of a turn, and writes the answer beside it.
    pub fn take_turn<'b>(&mut self, turn: &mut Turn<'b, K>)
        ensures called { called turn.new ≡ called turn.old }
        ensures told { (ds : List (Deed K)) → Told ds self.old.lent → Answered ds self.old.lent turn.new self.new.lent }
    {
        let answer = self.answer(&turn.call);
        turn.answer = Some(answer);
    }

    // Carries out the calls of a script one after the other, and writes each answer beside its call.
    pub fn run<'b>(&mut self, turns: &mut [Turn<'b, K>])
        ensures called { map called turns.new ≡ map called turns.old }
        ensures told { (ds : List (Deed K)) → Told ds self.old.lent → Runs ds self.old.lent turns.new self.new.lent }
    {
        for turn in turns.iter_mut() {
            self.take_turn(turn);
        }
    }
}

// Makes a list over lent memory, and carries out a script of calls on it. Whatever the calls, refused ones among them: each answer is
// the one due, and the order, the levels, the height and every kept link are those that the accepted calls built.
pub fn play<'a, 'b, K: HashKey>(
    keys: &'a mut [K],
    rows: &'a mut [Row],
    slots: &'a mut [u16],
    turns: &mut [Turn<'b, K>],
) -> SkipList<'a, K>
    ensures room { Usable (length keys.old) (length rows.old) (length slots.old) (size result.lent) }
    ensures called { map called turns.new ≡ map called turns.old }
    ensures law { Played turns.new result.lent }
{
    let mut list = SkipList::new(keys, rows, slots);
    list.run(turns);
    list
}
