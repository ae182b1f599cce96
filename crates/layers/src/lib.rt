// Layers over any ordered set, each of them one, and what is built above any set: proved once, against the meaning below.
#![tactic(auto)]

pub mod above;
pub mod cursor;
pub mod last_place;
pub mod limit;
pub mod loan;
