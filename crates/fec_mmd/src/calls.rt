// What each call of the FEC registers answers and changes.
ghost use Rattle.std.specs.Prelude.{◌≡◌, ◌+◌, ◌&&◌, ◌||◌, if◌then◌else◌, ◌==◌};
ghost use Rattle.bits.specs.Bits.{bit};
ghost use Rattle.fec_mmd.specs.Device.{meaning_of};
ghost use Rattle.fec_mmd.specs.Layout.{fec_layout};
ghost use Rattle.mmd.specs.Meaning.{new_meaning, read_word};
ghost use Rattle.fec_mmd.specs.Kept.{fec_keeps};

use crate::fec::FecMmd;
use bits::{high_half, is_one, low_half, with_bit};
use mmd::counter::Counter;
use mmd::mmd::Mmd;
use mmd::refusal::MmdRefusal;

// 10 Gb/s FEC error indication ability, FEC ability
const ABILITY: u16 = 74;

// enable FEC error indication, FEC enable
const CONTROL: u16 = 75;

// the halves of corrected FEC codewords
const CORRECTED_LOW: u16 = 76;

const CORRECTED_HIGH: u16 = 77;

// the halves of uncorrected FEC codewords
const UNCORRECTED_LOW: u16 = 78;

const UNCORRECTED_HIGH: u16 = 79;

// BER monitor threshold, BER monitor timer
const BER_CONTROL: u16 = 80;

// latched high BER, high BER
const BER_STATUS: u16 = 81;

const ERROR_INDICATION_BIT: u16 = 1;

// threshold 16, timer 25
const BER_CONTROL_DEFAULT: u16 = 0x1019;

const HIGH_BER_LINE: u8 = 0;

// counter numbers
const CORRECTED: u8 = 0;

const UNCORRECTED: u8 = 1;

impl FecMmd {
    // The registers after power-up, with every line down.
    pub fn new() -> FecMmd
        ensures { meaning_of result ≡ new_meaning fec_layout }
    {
        FecMmd {
            lines: 0,
            high_ber_latch: false,
            error_indication: false,
            ber_control: BER_CONTROL_DEFAULT,
            corrected: Counter::ZERO,
            uncorrected: Counter::ZERO,
        }
    }

    // The sixteen bits of a register.
    fn word(&self, register: u16) -> u16
        ensures { result ≡ read_word (meaning_of self.now) register }
    {
        match register {
            ABILITY => two_bits(true, true),
            CONTROL => two_bits(self.error_indication, true),
            CORRECTED_LOW => low_half(self.corrected.held),
            CORRECTED_HIGH => high_half(self.corrected.value),
            UNCORRECTED_LOW => low_half(self.uncorrected.held),
            UNCORRECTED_HIGH => high_half(self.uncorrected.value),
            BER_CONTROL => self.ber_control,
            BER_STATUS => two_bits(self.high_ber_latch, self.high_ber()),
            _ => 0,
        }
    }

    fn high_ber(&self) -> bool
        ensures { result ≡ bit self.now.lines 0 }
    {
        is_one(self.lines, u16::from(HIGH_BER_LINE))
    }

    // Latched high BER after a read of the register.
    fn latch_after_read(&self, register: u16) -> bool
        ensures { result ≡ (if register == 81 then bit self.now.lines 0 else self.now.high_ber_latch) }
    {
        match register {
            BER_STATUS => self.high_ber(),
            _ => self.high_ber_latch,
        }
    }

    // Latched high BER after a line is set: high BER that comes up sets it.
    fn latch_after_line(&self, number: u8, up: bool) -> bool
        ensures { result ≡ (self.now.high_ber_latch || (up && number == 0)) }
    {
        self.high_ber_latch || (up && number == HIGH_BER_LINE)
    }
}

// A counter after a read of the register: its high half takes the count into the held copy.
fn counter_after_read(counter: Counter, high: u16, register: u16) -> Counter
    ensures { result ≡ (if register == high then (record { value = 0; held = counter.value }) else counter) }
{
    if register != high {
        return counter;
    }
    counter.hold()
}

// The word whose bits 1 and 0 are these, and its others zero.
fn two_bits(one: bool, zero: bool) -> u16
    ensures { result ≡ (if one then 2 else 0) + (if zero then 1 else 0) }
{
    u16::from(one) * 2 + u16::from(zero)
}

impl Mmd for FecMmd {
    ghost meaning = { meaning_of };

    ghost keeps_invariant = { fec_keeps };

    fn read(&mut self, register: u16) -> u16 {
        let word = self.word(register);
        self.high_ber_latch = self.latch_after_read(register);
        self.corrected = counter_after_read(self.corrected, CORRECTED_HIGH, register);
        self.uncorrected = counter_after_read(self.uncorrected, UNCORRECTED_HIGH, register);
        word
    }

    fn write(&mut self, register: u16, word: u16) {
        match register {
            CONTROL => self.error_indication = is_one(u32::from(word), ERROR_INDICATION_BIT),
            BER_CONTROL => self.ber_control = word,
            _ => {}
        }
    }

    fn line(&mut self, number: u8, up: bool) {
        self.high_ber_latch = self.latch_after_line(number, up);
        self.lines = with_bit(self.lines, number, up);
    }

    fn count(&mut self, counter: u8, amount: u16) -> Result<(), MmdRefusal> {
        match counter {
            CORRECTED => self.corrected = self.corrected.add(amount, u32::MAX),
            UNCORRECTED => self.uncorrected = self.uncorrected.add(amount, u32::MAX),
            _ => return Err(MmdRefusal::NoField),
        }
        Ok(())
    }

    // No FEC register has a self-clearing bit.
    fn finish(&mut self, _register: u16, _bit: u8) -> Result<(), MmdRefusal> {
        Err(MmdRefusal::NotSelfClearing)
    }

    fn reset(&mut self) {
        self.high_ber_latch = self.high_ber();
        self.error_indication = false;
        self.ber_control = BER_CONTROL_DEFAULT;
        self.corrected = Counter::ZERO;
        self.uncorrected = Counter::ZERO;
    }
}
