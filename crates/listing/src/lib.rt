// Programs as text: hex digits to bytes, and bytes to a listing of instructions.
#![tactic(auto)]

pub mod faults;
pub mod hex;
pub mod lines;
#[cfg(test)]
mod tests;
pub mod text;
