// Playing a script of calls on a new terminal: reading it, making its calls, and writing a line for each answer.
#![tactic(auto)]

pub mod failure;
mod intervals;
mod memories;
pub mod play;
mod reading;
mod totals;
