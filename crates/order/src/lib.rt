// Orders of keys: what a key is, what an ordered set promises, and the plain row, which is one.
#![tactic(auto)]

pub mod fault;
pub mod key;
pub mod keys;
pub mod plain_row;
pub mod set;
