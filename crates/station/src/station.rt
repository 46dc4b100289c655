// A station: a bus over a bank, and the entries that are watched.
ghost use Rattle.std.specs.Prelude.{◌≡◌, true};
ghost use Rattle.station.specs.Named.{all_named};

use bus::bus::Bus;
use watch_list::watch::Watched;

// No impl Model: its value would hold register meanings, which are functions and have no code, as the check says.
#[derive(Drop)]
pub struct Station<B> {
    pub(crate) bus: Bus<B>,
    pub(crate) watched: Vec<Watched>,
    // a frame can name every entry's port and device
    ghost named: { all_named watched.items ≡ true },
}
