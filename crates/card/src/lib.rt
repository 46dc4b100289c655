// The ring card: its bank of MMDs and its watch list.
#![tactic(auto)]

pub mod card;
