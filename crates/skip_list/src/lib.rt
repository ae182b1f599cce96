// The row list: an indexed skip list over lent rows, which is an ordered set.
#![tactic(auto)]

pub mod call;
pub mod examples;
pub mod fault;
mod lent;
mod lent_links;
mod lent_moves;
pub mod level;
pub mod list;
pub mod memory;
pub mod play;
mod putting;
pub mod report;
mod reports;
pub mod set;
