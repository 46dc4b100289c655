// A station over any bank: its set-up, its seven calls, and runs of them.
#![tactic(auto)]

pub mod calls;
pub mod dispatch;
mod event;
mod hearing;
pub mod ran;
pub mod refused;
pub mod run;
pub mod set_up;
pub mod station;
mod sweep;
mod take;
