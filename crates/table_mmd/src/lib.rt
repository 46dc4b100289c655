// An MMD that is filled from rows, and keeps the register meaning for every layout that they can give.
#![tactic(auto)]

pub mod calls;
mod change;
mod counters;
mod entry;
pub mod fill;
mod live;
mod span;
pub mod table;
mod walk;
