// A management frame: the operation, and the address of the MMD that it names.
use crate::address::MmdAddress;
use std::fmt;

// The operation of a frame, with the 16 bits that it carries; a read frame carries none.
#[derive(Clone, Copy, PartialEq, Eq, Debug)]
pub enum Operation {
    Address { register: u16 },
    Write { data: u16 },
    Read,
    PostReadIncrement,
}

#[derive(Clone, Copy, PartialEq, Eq, Debug)]
pub struct Frame {
    pub address: MmdAddress,
    pub operation: Operation,
}

// In plain words.
impl fmt::Display for Frame {
    fn fmt<W: fmt::Write>(&self, f: &mut fmt::Formatter<W>) -> fmt::Result {
        let MmdAddress { port, device } = self.address;
        match self.operation {
            Operation::Address { register } => write!(
                f,
                "address port {port} device {device} register {register}"
            ),
            Operation::Write { data } => write!(
                f,
                "write port {port} device {device} data {data:#06x}"
            ),
            Operation::Read => write!(f, "read port {port} device {device}"),
            Operation::PostReadIncrement => write!(
                f,
                "post-read-increment port {port} device {device}"
            ),
        }
    }
}
