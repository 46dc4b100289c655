// Traces: records of calls replayed on a station, an answer line for each.
#![tactic(auto)]

pub mod part;
pub mod read;
pub mod replay;
pub mod replayed;
pub mod step;
mod text;
