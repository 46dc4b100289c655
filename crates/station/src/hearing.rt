// Which entry a register feeds.
ghost use Rattle.std.specs.Prelude.{◌≡◌};
ghost use Rattle.promise.specs.Rules.{hearing, hears};

use frame::address::MmdAddress;
use watch_list::watch::Watched;

// Whether reading the register feeds the entry.
fn hears(watched: &Watched, address: MmdAddress, register: u16) -> bool
    ensures { result ≡ hears address register watched.now }
{
    let entry = watched.entry();
    entry.is_of(address) && entry.is_fed_by(register)
}

// The number of the first entry that the register feeds.
pub(crate) fn hearing(watched: &[Watched], address: MmdAddress, register: u16) -> Option<usize>
    ensures { result ≡ hearing address register watched.now }
{
    watched
        .iter()
        .position(|entry| hears(entry, address, register))
}
