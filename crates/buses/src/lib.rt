// Data buses: the 65,536 cells that programs and calls read and write.
#![tactic(auto)]

pub mod board;
pub mod bus;
pub mod store;
#[cfg(test)]
mod tests;
