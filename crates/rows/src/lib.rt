// Rows of a register layout, and the check that they form one.
#![tactic(auto)]

pub mod check;
pub mod fault;
pub mod fitting;
mod part;
pub mod row;
pub mod slot;
pub mod span;
