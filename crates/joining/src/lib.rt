// What a watcher is still owed: words that join readings, and one function that spreads a reading over all watchers.
#![tactic(auto)]

pub mod count;
pub mod joining;
pub mod latch;
pub mod spread;
