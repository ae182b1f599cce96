// The desk of the program: a console over its two piles.
#![tactic(auto)]

pub mod desk;
pub mod piles;
