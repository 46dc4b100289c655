// What the FEC registers keep.
ghost use Rattle.std.specs.Prelude.{◌≡◌, ◌<◌, true};
ghost use Rattle.bits.specs.Bits.{bit};
ghost use Rattle.fec_mmd.specs.Meaning.{Fits32};

use mmd::counter::Counter;

#[derive(Drop)]
pub struct FecMmd {
    pub(crate) lines: u32,
    // 3.81.1, latched high BER: one while line 0, high BER, is up
    pub(crate) high_ber_latch: bool,
    // 3.75.1, enable FEC error indication
    pub(crate) error_indication: bool,
    // 3.80, BER monitor threshold and timer
    pub(crate) ber_control: u16,
    // corrected FEC codewords
    pub(crate) corrected: Counter,
    // uncorrected FEC codewords
    pub(crate) uncorrected: Counter,
    ghost latched: { bit lines 0 ≡ true → high_ber_latch ≡ true },
    ghost ber_control_fits: { ber_control < 65536 },
    ghost corrected_fits: { Fits32 corrected },
    ghost uncorrected_fits: { Fits32 uncorrected },
}
