// All entries of an MMD are read before it is reset.
ghost use Rattle.std.specs.Prelude.{◌≡◌, length};
ghost use Rattle.promise.specs.Rules.{swept};
ghost use Rattle.station.specs.Stations.{state_of};

use crate::station::Station;
use crate::take::take;
use bank::bank::Bank;
use frame::address::MmdAddress;

impl<B: Bank> Station<B> {
    // Takes all entries of the MMD at that address, in list order. Nothing changes where there is no MMD.
    pub(crate) fn sweep(&mut self, address: MmdAddress)
        ensures { state_of B.Bank.slots self.new ≡ swept address (length (state_of B.Bank.slots self.old).watched) (state_of B.Bank.slots self.old) }
    {
        for watched in self.watched.iter_mut() {
            if watched.entry().is_of(address) {
                let _ = take(&mut self.bus, watched);
            }
        }
    }
}
