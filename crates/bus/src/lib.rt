// The bus: frame words and register accesses reach the MMDs of a bank, and events reach them without a frame.
#![tactic(auto)]

pub mod access;
pub mod answer;
pub mod bus;
