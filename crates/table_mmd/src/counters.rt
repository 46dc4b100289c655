// What each call does to the counters of a table.
ghost use Rattle.std.specs.Prelude.{◌≡◌, true, if◌then◌else◌, Ok, Err};
ghost use Rattle.mmd.specs.Cells.{has_field};
ghost use Rattle.mmd.specs.declared.refusal.MmdRefusal.TheVariants.{NoField};
ghost use Rattle.rows.specs.Slots.{field_of, narrow_short};
ghost use Rattle.table_mmd.specs.Counts.{slot_counted, slot_read, slot_reset};

use mmd::counter::Counter;
use mmd::refusal::MmdRefusal;
use rows::slot::{CounterSlot, Places};

const LONG_TOP: u32 = 0xffff_ffff;

// The slot with some events more, if the counter has a field. That a short field is narrow is asked here alone: in a ghost
// field every slot that the specs write down, of rows that need not fit, would hold a proof of it.
pub fn counted(slot: CounterSlot, amount: u16) -> Result<CounterSlot, MmdRefusal>
    requires { narrow_short slot.places.short ≡ true }
    ensures { result ≡ (if has_field (field_of slot.places) then Ok (slot_counted amount slot) else Err NoField) }
{
    let Places { short, high, low } = slot.places;
    let top = match (short, high, low) {
        (Some(place), _, _) => (1 << place.width) - 1,
        (None, Some(_), Some(_)) => LONG_TOP,
        _ => return Err(MmdRefusal::NoField),
    };
    Ok(CounterSlot {
        counter: slot.counter.add(amount, top),
        ..slot
    })
}

// After a read of a register: a counter that shows there starts again.
pub fn read(slot: CounterSlot, register: u16) -> CounterSlot
    ensures { result ≡ slot_read register slot }
{
    let Places { short, high, low } = slot.places;
    match (short, high, low) {
        (Some(place), _, _) if place.register == register => CounterSlot {
            counter: slot.counter.clear(),
            ..slot
        },
        (None, Some(high), Some(_)) if high == register => CounterSlot {
            counter: slot.counter.hold(),
            ..slot
        },
        _ => slot,
    }
}

// After a reset of the MMD.
pub fn reset(slot: CounterSlot) -> CounterSlot
    ensures { result ≡ slot_reset slot }
{
    CounterSlot {
        counter: Counter::ZERO,
        ..slot
    }
}
