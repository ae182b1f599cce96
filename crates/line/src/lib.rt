// The command line of the panel: a line is read as a command, and an answer is printed as a line.
#![tactic(auto)]

pub(crate) mod answer;
pub mod command;
pub mod console;
pub mod fault;
mod field;
pub(crate) mod page;
pub mod reader;
