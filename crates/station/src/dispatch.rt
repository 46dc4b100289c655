// Every call as a value, and its answer.
ghost use Rattle.std.specs.Prelude.{◌≡◌};
ghost use Rattle.call.specs.declared.call.Call.TheVariants.{At};
ghost use Rattle.promise.specs.Rules.{after_call, answer_of};
ghost use Rattle.station.specs.Stations.{state_of};

use crate::station::Station;
use bank::bank::Bank;
use call::answer::Answer;
use call::call::{Call, Request};
use frame::address::MmdAddress;

impl<B: Bank> Station<B> {
    // Works a call, and gives its answer.
    pub fn call(&mut self, call: Call) -> Answer
        ensures answer { result ≡ answer_of call (state_of B.Bank.slots self.old) }
        ensures after { state_of B.Bank.slots self.new ≡ after_call call (state_of B.Bank.slots self.old) }
    {
        match call {
            Call::WatchRead { watcher, entry } => self.watch_read(watcher, entry).into(),
            Call::At { address, request } => self.request(address, request),
        }
    }

    fn request(&mut self, address: MmdAddress, request: Request) -> Answer
        ensures answer { result ≡ answer_of (At address request) (state_of B.Bank.slots self.old) }
        ensures after { state_of B.Bank.slots self.new ≡ after_call (At address request) (state_of B.Bank.slots self.old) }
    {
        match request {
            Request::Read { register } => self.plain_read(address, register).into(),
            Request::Write { register, word } => self.write(address, register, word).into(),
            Request::Line { number, up } => self.line(address, number, up).into(),
            Request::Count { counter, amount } => self.count(address, counter, amount).into(),
            Request::Finish { register, bit } => self.finish(address, register, bit).into(),
            Request::Reset => self.reset(address).into(),
        }
    }
}
