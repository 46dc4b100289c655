// What an MMD is: the register meaning of IEEE 802.3 Clause 45, which every kind of MMD keeps.
#![tactic(auto)]

pub mod counter;
pub mod event;
pub mod mmd;
pub mod refusal;
