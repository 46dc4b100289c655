// What is wrong with a list of items, and at which of them.
#![tactic(auto)]

use std::fmt::Display;
use thiserror::Error;

// A fault, and the place of the first item too many or at fault, from 0.
#[derive(Clone, Copy, PartialEq, Eq, Debug, Error)]
#[error("{fault}, at place {place}")]
#[error_bound(F: Display)]
pub struct FaultAt<F> {
    pub fault: F,
    pub place: usize,
}
