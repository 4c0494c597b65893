// The HOKSTER core over any bus and any unit: its instructions, one step, and a run.
#![tactic(auto)]

mod control;
mod extension;
pub mod faults;
mod interrupts;
mod logic;
pub mod machine;
mod memory;
mod moves;
mod stack;
pub mod state;
mod sums;
mod system;
