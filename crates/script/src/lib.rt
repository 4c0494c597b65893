// Call scripts: lines of text read as settings and calls, and answers written as text.
#![tactic(auto)]

pub mod answers;
mod bytes;
mod causes;
pub mod faults;
pub mod labels;
pub mod lines;
mod numbers;
pub mod operands;
mod text;
pub mod told;
mod verbs;
mod words;
pub mod writes;
