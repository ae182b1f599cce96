// Calls of a row list as values, each with a cell for its answer.
use order::fault::SetFault;

// What may be asked of a row list: a value and no closure, since the law of scripts speaks of it.
#[derive(Drop)]
pub enum Call<'b, K> {
    InsertHead {
        key: K,
        draw: u32,
    },
    InsertAfter {
        before: K,
        key: K,
        draw: u32,
    },
    InsertIndex {
        place: u32,
        key: K,
        draw: u32,
    },
    Splice {
        place: u32,
        keys: &'b [K],
        draws: &'b [u32],
    },
    RemoveKey {
        key: K,
    },
    RemoveIndex {
        place: u32,
    },
    IndexOf {
        key: K,
    },
    KeyOf {
        place: u32,
    },
}

// What it answers.
#[derive(Drop)]
pub enum Answer<K> {
    Put(Result<(), SetFault>),
    Spliced(Result<u32, SetFault>),
    Place(Option<u32>),
    Key(Option<K>),
}

// A call, and what it answered, once it was carried out.
#[derive(Drop)]
pub struct Turn<'b, K> {
    pub call: Call<'b, K>,
    pub answer: Option<Answer<K>>,
}
