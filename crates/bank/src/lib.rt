// Banks of MMDs: one slot, or two banks side by side, of whatever kinds.
#![tactic(auto)]

pub mod bank;
pub mod deed;
pub mod pair;
pub mod slot;
pub mod wanted;
