// The calls of a station and their answers.
#![tactic(auto)]

pub mod answer;
pub mod call;
