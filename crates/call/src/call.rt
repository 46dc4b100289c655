// What can be asked of a station.
use frame::address::MmdAddress;

// What is asked of the MMD at an address: the six calls as they are named, so an event's four stand beside read and write
// and not in an enum within this one.
#[derive(Clone, Copy, PartialEq, Eq, Debug)]
pub enum Request {
    // a plain read
    Read { register: u16 },
    Write { register: u16, word: u16 },
    // what the PHY reports: a line up or down, an amount counted
    Line { number: u8, up: bool },
    Count { counter: u8, amount: u16 },
    // what a self-clearing bit had started has ended
    Finish { register: u16, bit: u8 },
    Reset,
}

#[derive(Clone, Copy, PartialEq, Eq, Debug)]
pub enum Call {
    // a watcher looks at an entry of the watch list
    WatchRead {
        watcher: u8,
        entry: u8,
    },
    At {
        address: MmdAddress,
        request: Request,
    },
}
