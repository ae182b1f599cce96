// The rule book and the panel, over any ordered sets: the order alone sets the route.
#![tactic(auto)]

pub mod approach;
pub mod book;
pub mod call;
pub mod fault;
pub mod panel;
pub mod rule;
pub mod worked;
