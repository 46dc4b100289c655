// A bus over a pair of pairs of FEC MMDs: what frames, register accesses and events are answered, a line for each.
#![tactic(auto)]

mod told;

use bank::bank::Bank;
use bank::deed::Deed;
use bank::pair::Pair;
use bank::slot::Slot;
use bank::wanted::Wanted;
use bus::bus::Bus;
use fec_mmd::fec::FecMmd;
use frame::address::MmdAddress;
use frame::frame::Operation;
use mmd::event::Event;
use std::io;
use std::io::{BufWriter, Write};
use told::Told;

type Two = Pair<Slot<FecMmd>, Slot<FecMmd>>;

// two slots' addresses, and four that lead to no slot
const FIRST: MmdAddress = MmdAddress { port: 1, device: 3 };

const SECOND: MmdAddress = MmdAddress { port: 2, device: 1 };

const NO_DEVICE: MmdAddress = MmdAddress { port: 1, device: 4 };

const NO_PORT: MmdAddress = MmdAddress { port: 3, device: 3 };

const PORT_40: MmdAddress = MmdAddress {
    port: 40,
    device: 3,
};

const DEVICE_32: MmdAddress = MmdAddress {
    port: 1,
    device: 32,
};

const COUNT_5: Event = Event::Count {
    counter: 0,
    amount: 5,
};

const COUNT_NONE: Event = Event::Count {
    counter: 2,
    amount: 5,
};

const FINISH: Event = Event::Finish {
    register: 75,
    bit: 0,
};

fn main(rt: HostRuntime) -> io::Result<()> {
    let mut out = BufWriter::new(rt.alloc(), rt.stdout())?;
    write_twins(&mut two(FIRST, FIRST), &mut out)?;
    let left = two(FIRST, FIRST);
    let right = two(SECOND, PORT_40);
    let mut bus = Bus::new(Pair { left, right });
    write_registers(&mut bus, &mut out)?;
    write_refusals(&mut bus, &mut out)?;
    write_frames(&mut bus, &mut out)?;
    read_often(65535, &mut bus);
    write_line("65535 frames more", Told::Frames(bus.frames()), &mut out)?;
    read_often(1, &mut bus);
    write_line("65536 frames more", Told::Frames(bus.frames()), &mut out)?;
    out.flush()
}

fn two(left: MmdAddress, right: MmdAddress) -> Two {
    Pair {
        left: Slot::new(left, FecMmd::new()),
        right: Slot::new(right, FecMmd::new()),
    }
}

// Of two slots with one address the first is found, and the second stays as it was.
fn write_twins<W: Write>(twins: &mut Two, out: &mut W) -> io::Result<()> {
    let Some(slot) = twins.find(Wanted::Mmd(FIRST)) else {
        return write_line("twins", Told::Nothing, out);
    };
    twins.act(slot, Deed::Frame(Operation::Address { register: 75 }));
    twins.act(slot, Deed::Frame(Operation::Write { data: 3 }));
    twins.act(1, Deed::Frame(Operation::Address { register: 75 }));
    write_line("slot 0", twins.act(0, Deed::Frame(Operation::Read)), out)?;
    write_line("slot 1", twins.act(1, Deed::Frame(Operation::Read)), out)?;
    write_line("slot 2", twins.act(2, Deed::Frame(Operation::Read)), out)
}

fn write_line<T: Into<Told>, W: Write>(name: &str, given: T, out: &mut W) -> io::Result<()> {
    let told: Told = given.into();
    writeln!(out, "{name}: {told}")
}

// Registers of two slots are read and written, and what is no slot's is refused.
fn write_registers<B: Bank, W: Write>(bus: &mut Bus<B>, out: &mut W) -> io::Result<()> {
    write_line("count at 1.3", bus.event(FIRST, COUNT_5), out)?;
    write_line("read 1.3.77", bus.read_register(FIRST, 77), out)?;
    write_line("read 1.3.76", bus.read_register(FIRST, 76), out)?;
    write_line("read 2.1.77", bus.read_register(SECOND, 77), out)?;
    write_line("read 2.1.76", bus.read_register(SECOND, 76), out)?;
    write_line("frames", Told::Frames(bus.frames()), out)?;
    write_line("write 2.1.75", bus.write_register(SECOND, 75, 3), out)?;
    write_line("read 2.1.75", bus.read_register(SECOND, 75), out)?;
    write_line("read 1.3.75", bus.read_register(FIRST, 75), out)?;
    write_line("frames", Told::Frames(bus.frames()), out)?;
    Ok(())
}

// What is refused by the bus, and that it is not counted.
fn write_refusals<B: Bank, W: Write>(bus: &mut Bus<B>, out: &mut W) -> io::Result<()> {
    write_line("read at no device", bus.read_register(NO_DEVICE, 75), out)?;
    write_line(
        "write at no device",
        bus.write_register(NO_DEVICE, 75, 3),
        out,
    )?;
    write_line("read at no port", bus.read_register(NO_PORT, 75), out)?;
    write_line("write at no port", bus.write_register(NO_PORT, 75, 3), out)?;
    write_line("read at port 40", bus.read_register(PORT_40, 75), out)?;
    write_line("write at port 40", bus.write_register(PORT_40, 75, 3), out)?;
    write_line("read at device 32", bus.read_register(DEVICE_32, 75), out)?;
    write_line("frame to no device", bus.frame(0x0092_004b), out)?;
    write_line("frame to no port", bus.frame(0x018e_004b), out)?;
    write_line("frame with another start", bus.frame(0x4000_0000), out)?;
    write_line("frame with another turnaround", bus.frame(0x108d_1234), out)?;
    write_line("frames", Told::Frames(bus.frames()), out)?;
    write_line("count at port 40", bus.event(PORT_40, COUNT_5), out)?;
    write_line("count at no device", bus.event(NO_DEVICE, COUNT_5), out)?;
    write_line("count at no port", bus.event(NO_PORT, COUNT_5), out)?;
    write_line("count of no counter", bus.event(FIRST, COUNT_NONE), out)?;
    write_line(
        "finish of no self-clearing bit",
        bus.event(FIRST, FINISH),
        out,
    )?;
    write_line("frames", Told::Frames(bus.frames()), out)?;
    Ok(())
}

// Frames as words, by the address register.
fn write_frames<B: Bank, W: Write>(bus: &mut Bus<B>, out: &mut W) -> io::Result<()> {
    write_line("address 1.3.80", bus.frame(0x008e_0050), out)?;
    write_line("post-read-increment", bus.frame(0x208c_0000), out)?;
    write_line("post-read-increment", bus.frame(0x208c_0000), out)?;
    write_line("read at 82", bus.frame(0x308c_0000), out)?;
    write_line("address 1.3.65535", bus.frame(0x008e_ffff), out)?;
    write_line("post-read-increment", bus.frame(0x208c_0000), out)?;
    write_line("frames", Told::Frames(bus.frames()), out)?;
    Ok(())
}

// Read frames to the first address.
fn read_often<B: Bank>(count: u32, bus: &mut Bus<B>) {
    for _ in 0..count {
        bus.frame(0x308c_0000);
    }
}
