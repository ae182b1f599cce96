// An index of keys by their hashes over lent slots: chains of rows, and the rows that are free.
#![tactic(auto)]

pub mod rows;
