// The check of a table of rows: each row by the rules in their order, then the halves of counters.
ghost use Rattle.std.specs.Prelude.{◌≡◌, length, nat_lt, position};
ghost use Rattle.rows.specs.Checks.{follows, is_partnerless, places_in, taken_as, Checked, Joins, Placed, SlotsOf};
ghost use Rattle.rows.specs.Fitting.{Passes};

use crate::fault::TableFault;
use crate::fitting::FittingRow;
use crate::row::{Content, Row};
use crate::slot::{CounterSlot, Places, slot_of};
use fault_at::FaultAt;

const MOST_ROWS: usize = 64;

const COUNTERS: usize = 16;

fn too_many(rows: &[Row]) -> bool
    ensures { result ≡ nat_lt 64 (length rows.now) }
{
    rows.len() > MOST_ROWS
}

// The row comes after the last of the earlier ones.
fn follows(earlier: &[Row], row: &Row) -> bool
    ensures { result ≡ follows earlier.now row.now }
{
    match earlier.last() {
        Some(last) => last.comes_before(row),
        None => true,
    }
}

// The counter that the content names, if it names one, has a field, and this is not its missing half.
fn is_taken(slots: &[CounterSlot; COUNTERS], content: Content) -> bool
    ensures { result ≡ taken_as content (places_in slots.now) }
{
    match content.counter() {
        Some((number, part)) => slot_of(slots, number).places.is_taken(part),
        None => false,
    }
}

// The row is a half whose other half is in no row.
fn is_partnerless(slots: &[CounterSlot; COUNTERS], row: &Row) -> bool
    ensures { result ≡ is_partnerless row.now (places_in slots.now) }
{
    match row.content().and_then(Content::counter) {
        Some((number, part)) => slot_of(slots, number).places.lacks_partner(part),
        None => false,
    }
}

// The row, or the first rule that it breaks behind the earlier rows and the counters that they place.
fn tested(
    earlier: &[Row],
    slots: &[CounterSlot; COUNTERS],
    row: &Row,
) -> Result<FittingRow, TableFault>
    requires { SlotsOf earlier.now slots.now }
    ensures { Passes earlier.now row.now result }
{
    let fitting = FittingRow::try_from(*row)?;
    if !follows(earlier, row) {
        return Err(TableFault::Order);
    }
    if is_taken(slots, fitting.content) {
        return Err(TableFault::Counter);
    }
    Ok(fitting)
}

// The slots with the place that a row gives its counter, if it has one.
fn note(slots: &mut [CounterSlot; COUNTERS], row: &FittingRow)
    ensures { Joins row.now.listed slots.old slots.new }
{
    if let Some((number, part)) = row.content.counter() {
        let slot = slots[usize::from(number)];
        slots[usize::from(number)] = CounterSlot {
            places: slot.places.joined(Places::of(part, row)),
            ..slot
        };
    }
}

// The counters that the rows place, or the first row that breaks a rule of its own.
fn place_all(rows: &[Row]) -> Result<[CounterSlot; COUNTERS], FaultAt<TableFault>>
    ensures { Placed rows.now result }
{
    let mut slots = [CounterSlot::EMPTY; COUNTERS];
    // A rule of the project: rows are looped over with their index, so that a refusal names its place.
    for (place, row) in rows.iter().enumerate() {
        match tested(&rows[..place], &slots, row) {
            Ok(fitting) => note(&mut slots, &fitting),
            Err(fault) => return Err(FaultAt { fault, place }),
        }
    }
    Ok(slots)
}

// The place of the first row that is a half whose other half is in no row.
fn first_partnerless(rows: &[Row], slots: &[CounterSlot; COUNTERS]) -> Option<usize>
    ensures { result ≡ position (λ row. is_partnerless row (places_in slots.now)) rows.now }
{
    rows.iter().position(|row| is_partnerless(slots, row))
}

// The counters of a table of rows, or what is wrong with it.
pub fn check(rows: &[Row]) -> Result<[CounterSlot; COUNTERS], FaultAt<TableFault>>
    ensures { Checked rows.now result }
{
    if too_many(rows) {
        return Err(FaultAt {
            fault: TableFault::TooManyRows,
            place: MOST_ROWS,
        });
    }
    let slots = place_all(rows)?;
    match first_partnerless(rows, &slots) {
        Some(place) => Err(FaultAt {
            fault: TableFault::Partner,
            place,
        }),
        None => Ok(slots),
    }
}
