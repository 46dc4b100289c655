// The 10G-EPON FEC registers of IEEE 802.3 device 3, the PCS, wired: each register is a case of the code.
#![tactic(auto)]

pub mod calls;
pub mod fec;
#[cfg(test)]
mod tests;
