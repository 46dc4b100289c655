// Trace records: a call taken off the front of an input. A record is a map, then a field for each bit of it:
//
//   bit 0  port, device          bit 4  line number, plus 128 for up
//   bit 1  register, two bytes   bit 5  counter, count of two bytes
//   bit 2  data, two bytes       bit 6  nothing
//   bit 3  watcher, entry        bit 7  bit number
//
// By a rule of the project each record is taken apart by a slice pattern with `let .. else`.
ghost use Rattle.std.specs.Prelude.{◌≡◌, ◌+◌, ◌*◌};
ghost use Rattle.trace_format.specs.Decoding.{Decoding};
ghost use Rattle.trace_format.specs.Records.{count_in, decode_of, decoded, finish_in, line_in, plain_read_in, record_in, record_taken, reset_in, taken_by, watch_read_in, write_in};

use crate::refusal::TraceRefusal;
use call::call::{Call, Request};
use frame::address::MmdAddress;

// The maps that are listed.
const PLAIN_READ: u8 = 0x03;

const WRITE: u8 = 0x07;

const WATCH_READ: u8 = 0x08;

const LINE: u8 = 0x11;

const COUNT: u8 = 0x21;

const RESET: u8 = 0x41;

const FINISH: u8 = 0x83;

// What the byte of a line has beside its number where the line goes up.
const UP: u8 = 128;

// The call that a record spells, and the input behind the record.
pub struct Record<'a> {
    pub call: Call,
    pub rest: &'a [u8],
}

// The record at the front of an input; none at its end.
pub fn decode(input: &[u8]) -> Result<Option<Record<'_>>, TraceRefusal>
    ensures result { decoded result ≡ decode_of input.now }
    ensures laws { Decoding }
{
    match input {
        [] => Ok(None),
        [map, fields @ ..] => Ok(Some(by_map(*map, fields)?)),
    }
}

// The record of a map; the map is looked at before the fields are.
fn by_map(map: u8, fields: &[u8]) -> Result<Record<'_>, TraceRefusal>
    ensures { record_taken result ≡ record_in map fields.now }
{
    match map {
        PLAIN_READ => plain_read(fields),
        WRITE => write(fields),
        WATCH_READ => watch_read(fields),
        LINE => line(fields),
        COUNT => count(fields),
        RESET => reset(fields),
        FINISH => finish(fields),
        _ => Err(TraceRefusal::UnlistedMap),
    }
}

fn plain_read(fields: &[u8]) -> Result<Record<'_>, TraceRefusal>
    ensures { record_taken result ≡ plain_read_in fields.now }
{
    let [port, device, high, low, rest @ ..] = fields else {
        return Err(TraceRefusal::CutRecord);
    };
    let register = number(*high, *low);
    let request = Request::Read { register };
    Ok(asking(*port, *device, request, rest))
}

fn write(fields: &[u8]) -> Result<Record<'_>, TraceRefusal>
    ensures { record_taken result ≡ write_in fields.now }
{
    let [port, device, high, low, data_high, data_low, rest @ ..] = fields else {
        return Err(TraceRefusal::CutRecord);
    };
    let register = number(*high, *low);
    let word = number(*data_high, *data_low);
    let request = Request::Write { register, word };
    Ok(asking(*port, *device, request, rest))
}

fn watch_read(fields: &[u8]) -> Result<Record<'_>, TraceRefusal>
    ensures { record_taken result ≡ watch_read_in fields.now }
{
    let [watcher, entry, rest @ ..] = fields else {
        return Err(TraceRefusal::CutRecord);
    };
    let call = Call::WatchRead {
        watcher: *watcher,
        entry: *entry,
    };
    Ok(Record { call, rest })
}

fn line(fields: &[u8]) -> Result<Record<'_>, TraceRefusal>
    ensures { record_taken result ≡ line_in fields.now }
{
    let [port, device, line, rest @ ..] = fields else {
        return Err(TraceRefusal::CutRecord);
    };
    let request = Request::Line {
        number: *line % UP,
        up: *line >= UP,
    };
    Ok(asking(*port, *device, request, rest))
}

fn count(fields: &[u8]) -> Result<Record<'_>, TraceRefusal>
    ensures { record_taken result ≡ count_in fields.now }
{
    let [port, device, counter, high, low, rest @ ..] = fields else {
        return Err(TraceRefusal::CutRecord);
    };
    let request = Request::Count {
        counter: *counter,
        amount: number(*high, *low),
    };
    Ok(asking(*port, *device, request, rest))
}

fn reset(fields: &[u8]) -> Result<Record<'_>, TraceRefusal>
    ensures { record_taken result ≡ reset_in fields.now }
{
    let [port, device, rest @ ..] = fields else {
        return Err(TraceRefusal::CutRecord);
    };
    Ok(asking(*port, *device, Request::Reset, rest))
}

fn finish(fields: &[u8]) -> Result<Record<'_>, TraceRefusal>
    ensures { record_taken result ≡ finish_in fields.now }
{
    let [port, device, high, low, bit, rest @ ..] = fields else {
        return Err(TraceRefusal::CutRecord);
    };
    let register = number(*high, *low);
    let request = Request::Finish {
        register,
        bit: *bit,
    };
    Ok(asking(*port, *device, request, rest))
}

// What is asked of the MMD at an address, and the input behind that.
fn asking(port: u8, device: u8, request: Request, rest: &[u8]) -> Record<'_>
    ensures { taken_by result ≡ record { call = Call.At (record { port = port; device = device }) request; rest = rest.now } }
{
    let address = MmdAddress { port, device };
    let call = Call::At { address, request };
    Record { call, rest }
}

// A number of two bytes, the higher first.
fn number(high: u8, low: u8) -> u16
    ensures { result ≡ high * 256 + low }
{
    u16::from_be_bytes([high, low])
}
