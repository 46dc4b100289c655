// How the station reads an entry: over its bus, and then into the entry's words.
ghost use Rattle.std.specs.Prelude.{◌≡◌, true, [], ◌∷◌, None};
ghost use Rattle.bus.specs.Places.{place};
ghost use Rattle.promise.specs.Rules.{data_of, place_of, read_by, state_under, took};
ghost use Rattle.watch_list.specs.Watches.{entry_of};
ghost use Rattle.station.specs.Named.{is_named};
ghost use Rattle.station.specs.Outcomes.{access_verdict, result_under};
ghost use Rattle.station.specs.Stations.{state_over};
ghost use Rattle.station.specs.Takes.{entry_verdict, registers_read, take_answer, words_at};

use bank::bank::Bank;
use bus::bus::Bus;
use call::answer::CallRefusal;
use frame::address::MmdAddress;
use watch_list::entry::Entry;
use watch_list::watch::Watched;

// Reads a register by two frames. A refused read changes nothing.
pub(crate) fn read_register<B: Bank>(
    bus: &mut Bus<B>,
    address: MmdAddress,
    register: u16,
) -> Result<u16, CallRefusal>
    ensures answer { result ≡ result_under (access_verdict address (B.Bank.slots bus.old.bank)) (data_of register (place address (B.Bank.slots bus.old.bank))) }
    ensures after { state_over B.Bank.slots bus.new [] ≡ state_under (access_verdict address (B.Bank.slots bus.old.bank)) (read_by address register None (state_over B.Bank.slots bus.old [])) (state_over B.Bank.slots bus.old []) }
{
    Ok(bus.read_register(address, register)?)
}

// Reads an entry's registers: its one register, or the high half's and then the low half's.
fn read_entry<B: Bank>(bus: &mut Bus<B>, entry: Entry) -> Result<(u16, u16), CallRefusal>
    requires { is_named entry ≡ true }
    ensures answer { result ≡ result_under (entry_verdict entry (B.Bank.slots bus.old.bank)) (words_at entry (place_of entry (B.Bank.slots bus.old.bank))) }
    ensures after { state_over B.Bank.slots bus.new [] ≡ state_under (entry_verdict entry (B.Bank.slots bus.old.bank)) (registers_read entry (state_over B.Bank.slots bus.old [])) (state_over B.Bank.slots bus.old []) }
{
    match entry {
        Entry::Latch(latch) => {
            let word = read_register(bus, latch.address, latch.register)?;
            Ok((word, 0))
        }
        Entry::Count(count) => {
            let high = read_register(bus, count.address, count.high)?;
            let low = read_register(bus, count.address, count.low)?;
            Ok((high, low))
        }
    }
}

// Reads an entry's registers, and has all its words take the reading in. Answers the word of the first register.
pub(crate) fn take<B: Bank>(bus: &mut Bus<B>, watched: &mut Watched) -> Result<u16, CallRefusal>
    requires { is_named (entry_of watched.old) ≡ true }
    ensures answer { result ≡ take_answer watched.old (B.Bank.slots bus.old.bank) }
    ensures after { state_over B.Bank.slots bus.new (watched.new ∷ []) ≡ took 0 (state_over B.Bank.slots bus.old (watched.old ∷ [])) }
    ensures entry { entry_of watched.new ≡ entry_of watched.old }
{
    let (word, low) = read_entry(bus, watched.entry())?;
    watched.take_in(word, low);
    Ok(word)
}
