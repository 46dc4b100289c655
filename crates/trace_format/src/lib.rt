// Trace records and answer lines: calls taken off an input of bytes, and their answers put into a buffer as text.
#![tactic(auto)]

pub mod line;
pub mod record;
pub mod refusal;
