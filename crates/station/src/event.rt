// How an event reaches an MMD.
ghost use Rattle.std.specs.Prelude.{◌≡◌, ◌&&◌};
ghost use Rattle.frame.specs.Addresses.{addressable};
ghost use Rattle.promise.specs.Rules.{evented, in_range, state_under};
ghost use Rattle.station.specs.Outcomes.{event_verdict, request_of, result_under};
ghost use Rattle.station.specs.Stations.{state_of};

use crate::station::Station;
use bank::bank::Bank;
use call::answer::CallRefusal;
use frame::address::MmdAddress;
use mmd::event::Event;

const LAST_LINE: u8 = 31;

const LAST_COUNTER: u8 = 15;

const LAST_BIT: u8 = 15;

fn in_range(event: Event) -> bool
    ensures { result ≡ in_range (request_of event) }
{
    match event {
        Event::Line { number, .. } => number <= LAST_LINE,
        Event::Count { counter, .. } => counter <= LAST_COUNTER,
        Event::Finish { bit, .. } => bit <= LAST_BIT,
        Event::Reset => true,
    }
}

fn all_in_range(address: MmdAddress, event: Event) -> bool
    ensures { result ≡ (addressable address && in_range (request_of event)) }
{
    address.is_addressable() && in_range(event)
}

impl<B: Bank> Station<B> {
    // Takes an event to the MMD at that address, without a frame. A refused one changes nothing.
    pub(crate) fn event(&mut self, address: MmdAddress, event: Event) -> Result<(), CallRefusal>
        ensures answer { result ≡ result_under (event_verdict address event (state_of B.Bank.slots self.old).slots) tt }
        ensures after { state_of B.Bank.slots self.new ≡ state_under (event_verdict address event (state_of B.Bank.slots self.old).slots) (evented address event (state_of B.Bank.slots self.old)) (state_of B.Bank.slots self.old) }
    {
        if !all_in_range(address, event) {
            return Err(CallRefusal::OutOfRange);
        }
        self.bus.event(address, event)?;
        Ok(())
    }
}
