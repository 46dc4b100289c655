// The watch list: what the station watches, its check, and an entry with what each watcher is owed of it.
#![tactic(auto)]

pub mod check;
pub mod entry;
pub mod fault;
pub mod watch;
pub mod watched;
