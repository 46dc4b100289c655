// The FEC registers on examples.
use crate::fec::FecMmd;
use mmd::mmd::Mmd;
use mmd::refusal::MmdRefusal;
use std::test::Fail;

#[test]
fn first_reads(rt: HostRuntime) {
    let mut fec = FecMmd::new();
    assert_eq!(rt; fec.read(73), 0);
    assert_eq!(rt; fec.read(74), 3);
    assert_eq!(rt; fec.read(75), 1);
    assert_eq!(rt; fec.read(76), 0);
    assert_eq!(rt; fec.read(77), 0);
    assert_eq!(rt; fec.read(78), 0);
    assert_eq!(rt; fec.read(79), 0);
    assert_eq!(rt; fec.read(80), 0x1019);
    assert_eq!(rt; fec.read(81), 0);
    assert_eq!(rt; fec.read(82), 0);
}

#[test]
fn halves_of_the_counters(rt: HostRuntime) -> Result<(), Fail> {
    let mut fec = FecMmd::new();
    fec.count(0, 0xffff)?;
    fec.count(0, 3)?;
    fec.count(1, 7)?;
    assert_eq!(rt; fec.read(76), 0, "nothing is held yet");
    assert_eq!(rt; fec.read(77), 1);
    assert_eq!(rt; fec.read(76), 2);
    assert_eq!(rt; fec.read(76), 2);
    assert_eq!(rt; fec.read(77), 0);
    assert_eq!(rt; fec.read(76), 0);
    assert_eq!(rt; fec.read(79), 0);
    assert_eq!(rt; fec.read(78), 7);
    assert_eq!(rt; fec.count(2, 1), Err(MmdRefusal::NoField));
    Ok(())
}

#[test]
fn high_ber_latches(rt: HostRuntime) {
    let mut fec = FecMmd::new();
    fec.line(0, true);
    assert_eq!(rt; fec.read(81), 3);
    assert_eq!(rt; fec.read(81), 3);
    fec.line(0, false);
    assert_eq!(rt; fec.read(81), 2);
    assert_eq!(rt; fec.read(81), 0);
    fec.line(1, true);
    assert_eq!(rt; fec.read(81), 0);
}

#[test]
fn settings_and_reset(rt: HostRuntime) {
    let mut fec = FecMmd::new();
    fec.write(75, 0xffff);
    fec.write(80, 0xabcd);
    assert_eq!(rt; fec.read(75), 3);
    assert_eq!(rt; fec.read(80), 0xabcd);
    assert_eq!(rt; fec.finish(75, 1), Err(MmdRefusal::NotSelfClearing));
    fec.reset();
    assert_eq!(rt; fec.read(75), 1);
    assert_eq!(rt; fec.read(80), 0x1019);
}
