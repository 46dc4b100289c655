// The 32-bit management frame word of IEEE 802.3 Clause 45: what it says, and how it is built and split.
#![tactic(auto)]

pub mod address;
mod field;
pub mod frame;
pub mod refusal;
pub mod word;
