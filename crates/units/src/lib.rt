// Extension units: operations that a core is fitted with.
#![tactic(auto)]

pub mod aes;
pub mod cham;
pub mod field;
pub mod inverse_s_box;
pub mod s_box;
mod sequence;
pub mod unit;
