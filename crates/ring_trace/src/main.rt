// A trace of calls from standard input, replayed on the ring card: an answer line for each record.
#![tactic(auto)]

use anyhow::anyhow;
use card::card::{WATCH_LIST, card_bank};
use station::station::Station;
use std::io::{BufRead, BufReader, Write};
use trace::part::{Part, RECORD_MAX, replay_part};

// The bytes of a part of the input, and room for the lines of all its records: a record has three bytes or more, and a
// line eleven or fewer.
const INPUT: usize = 65536;

const LINES: usize = 262144;

fn main(rt: HostRuntime) -> anyhow::Result<()> {
    let bank = card_bank(rt.alloc()).map_err(|_| anyhow!("no memory for the card's table"))?;
    let mut station = Station::new(rt.alloc(), bank, &WATCH_LIST).map_err(|_| anyhow!(
        "no memory for the watch list"
    ))?;
    let mut input = BufReader::with_capacity(rt.alloc(), INPUT, rt.stdin())?;
    let mut out = rt.stdout();
    // room for a part and what the part before it left, less than a record, so that no memory is asked for later
    let mut bytes = Vec::with_capacity(rt.alloc(), INPUT + RECORD_MAX)?;
    let mut lines = vec![in rt.alloc(); 0u8; LINES]?;
    // nothing says that an input ends, and a loop must
    for _ in 0..u64::MAX {
        let part = input.fill_buf()?;
        let count = part.len();
        bytes.extend_from_slice(part)?;
        input.consume(count);
        let Part {
            taken,
            written,
            rest,
        } = replay_part(&mut station, &bytes, count == 0, &mut lines);
        out.write_all(&lines[..written])?;
        let Some(rest) = rest else {
            return Ok(());
        };
        let left = rest.len();
        // not by `drain`, which turns round all that was worked
        bytes.copy_within(taken.., 0);
        bytes.truncate(left);
    }
    Ok(())
}
