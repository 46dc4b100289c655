// Frame words by shifts and masks. A field's place stands once, here, and both directions use it.
//
//   31:30  29:28  27:23  22:18  17:16  15:0
//   ST     OP     PRTAD  DEVAD  TA     ADDRESS or DATA
ghost use Rattle.std.specs.Prelude.{◌≡◌, ◌<◌, true, not, ◌||◌, ◌==◌};
ghost use Rattle.frame.specs.Addresses.{addressable};
ghost use Rattle.frame.specs.Laws.{SplitsBack, OnlyCountingBitsDecide};
ghost use Rattle.frame.specs.Words.{built, drives_low, frame_in, low16_of, op_of, operation_in, split_of, st, ta, ta_of, word_of};

use crate::address::MmdAddress;
use crate::field::Field;
use crate::frame::{Frame, Operation};
use crate::refusal::FrameRefusal;

const ST: Field = Field { low: 30, width: 2 };

const OP: Field = Field { low: 28, width: 2 };

const PRTAD: Field = Field { low: 23, width: 5 };

const DEVAD: Field = Field { low: 18, width: 5 };

const TA: Field = Field { low: 16, width: 2 };

const LOW16: Field = Field { low: 0, width: 16 };

const ST_CLAUSE_45: u32 = 0b00;

const OP_ADDRESS: u32 = 0b00;

const OP_WRITE: u32 = 0b01;

const OP_POST_READ_INCREMENT: u32 = 0b10;

const OP_READ: u32 = 0b11;

const TA_DRIVEN: u32 = 0b10;

const TA_RELEASED: u32 = 0b00;

// The frame that a word spells.
pub fn split(word: u32) -> Result<Frame, FrameRefusal>
    ensures result { result ≡ split_of word }
    ensures only_counting_bits_decide { OnlyCountingBitsDecide word }
{
    if !starts_as_clause_45(word) {
        return Err(FrameRefusal::Start);
    }
    if !turns_around(word) {
        return Err(FrameRefusal::Turnaround);
    }
    Ok(frame_in(word))
}

// The word of a frame.
pub fn build(frame: Frame) -> Result<u32, FrameRefusal>
    ensures result { result ≡ built frame }
    ensures splits_back { SplitsBack frame }
{
    if !frame.address.is_addressable() {
        return Err(FrameRefusal::Address);
    }
    Ok(word_of(frame))
}

fn starts_as_clause_45(word: u32) -> bool
    ensures { result ≡ (st word == 0) }
{
    ST.of(word) == ST_CLAUSE_45
}

// The turnaround is 10, or the station does not drive it.
fn turns_around(word: u32) -> bool
    ensures { result ≡ (not (drives_low word) || ta word == 2) }
{
    turnaround(operation_in(word)) != TA_DRIVEN || TA.of(word) == TA_DRIVEN
}

fn frame_in(word: u32) -> Frame
    ensures { result ≡ frame_in word }
{
    Frame {
        address: MmdAddress {
            port: PRTAD.of(word) as u8,
            device: DEVAD.of(word) as u8,
        },
        operation: operation_in(word),
    }
}

fn operation_in(word: u32) -> Operation
    ensures { result ≡ operation_in word }
{
    let low = LOW16.of(word) as u16;
    match OP.of(word) {
        OP_ADDRESS => Operation::Address { register: low },
        OP_WRITE => Operation::Write { data: low },
        OP_POST_READ_INCREMENT => Operation::PostReadIncrement,
        _ => Operation::Read,
    }
}

fn word_of(frame: Frame) -> u32
    requires { addressable frame.address ≡ true }
    ensures value { result ≡ word_of frame }
    ensures low16_fits { low16_of frame.operation < 65536 }
{
    let word = OP.put(0, op_code(frame.operation));
    let word = PRTAD.put(word, u32::from(frame.address.port));
    let word = DEVAD.put(word, u32::from(frame.address.device));
    let word = TA.put(word, turnaround(frame.operation));
    LOW16.put(word, u32::from(low16(frame.operation)))
}

fn op_code(operation: Operation) -> u32
    ensures { result ≡ op_of operation }
{
    match operation {
        Operation::Address { .. } => OP_ADDRESS,
        Operation::Write { .. } => OP_WRITE,
        Operation::Read => OP_READ,
        Operation::PostReadIncrement => OP_POST_READ_INCREMENT,
    }
}

fn turnaround(operation: Operation) -> u32
    ensures { result ≡ ta_of operation }
{
    match operation {
        Operation::Address { .. } | Operation::Write { .. } => TA_DRIVEN,
        Operation::Read | Operation::PostReadIncrement => TA_RELEASED,
    }
}

fn low16(operation: Operation) -> u16
    ensures { result ≡ low16_of operation }
{
    match operation {
        Operation::Address { register } => register,
        Operation::Write { data } => data,
        Operation::Read | Operation::PostReadIncrement => 0,
    }
}

#[cfg(test)]
mod tests {
    use super::*;

    const PORT_1_DEVICE_3: Frame = Frame {
        address: MmdAddress { port: 1, device: 3 },
        operation: Operation::Read,
    };

    #[test]
    fn worked_frames(rt: HostRuntime) {
        let address = Frame {
            operation: Operation::Address { register: 76 },
            ..PORT_1_DEVICE_3
        };
        assert_eq!(rt; build(address), Ok(0x008e_004c));
        assert_eq!(rt; split(0x008e_004c), Ok(address));
        assert_eq!(rt; build(PORT_1_DEVICE_3), Ok(0x308c_0000));
        assert_eq!(rt; split(0x308c_0000), Ok(PORT_1_DEVICE_3));
        assert_eq!(rt; split(0x308f_ffff), Ok(PORT_1_DEVICE_3));
    }

    #[test]
    fn refused_frames(rt: HostRuntime) {
        assert_eq!(rt; split(0x108d_1234), Err(FrameRefusal::Turnaround));
        assert_eq!(rt; split(0x4000_0000), Err(FrameRefusal::Start));
        assert_eq!(rt;
            build(Frame {
                address: MmdAddress {
                    port: 32,
                    device: 3
                },
                ..PORT_1_DEVICE_3
            }),
            Err(FrameRefusal::Address)
        );
        assert_eq!(rt;
            build(Frame {
                address: MmdAddress {
                    port: 1,
                    device: 32
                },
                ..PORT_1_DEVICE_3
            }),
            Err(FrameRefusal::Address)
        );
        assert_eq!(rt; FrameRefusal::Start.number(), 1);
        assert_eq!(rt; FrameRefusal::Turnaround.number(), 2);
        assert_eq!(rt; FrameRefusal::Address.number(), 5);
    }
}
