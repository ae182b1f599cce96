// What a link report holds.

// A link of one level: the key that it names, or none, and the difference of the two positions.
#[derive(Clone, Copy, Debug, PartialEq, Eq)]
pub struct KeyLink<K> {
    pub key: Option<K>,
    pub count: u16,
}

// The links of one level, ahead and back.
#[derive(Clone, Copy, Debug, PartialEq, Eq)]
pub struct KeyLinks<K> {
    pub ahead: KeyLink<K>,
    pub back: KeyLink<K>,
}
