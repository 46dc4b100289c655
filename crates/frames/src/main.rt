// Frame words from standard input, one a line, replayed on the card's bank: for each a line that says it in plain words,
// and one with the bus's answer.
#![tactic(auto)]

mod listing;
mod scan;

use anyhow::anyhow;
use bank::bank::Bank;
use bus::bus::Bus;
use card::card::card_bank;
use frame::word::split;
use listing::{Listing, NumberedLine};
use scan::Line;
use std::io;
use std::io::{BufRead, BufReader, BufWriter, Write};

const CHUNK: usize = 65536;

fn main(rt: HostRuntime) -> anyhow::Result<()> {
    let mut input = BufReader::with_capacity(rt.alloc(), CHUNK, rt.stdin())?;
    let mut out = BufWriter::new(rt.alloc(), rt.stdout())?;
    let bank = card_bank(rt.alloc()).map_err(|_| anyhow!("no memory for the card's table"))?;
    let mut bus = Bus::new(bank);
    let mut listing = Listing::new();
    // part by part, since `bytes` took a third more time; bounded, since a loop must end and an input need not
    for _ in 0..u64::MAX {
        let part = input.fill_buf()?;
        let count = part.len();
        if count == 0 {
            break;
        }
        for byte in part {
            if let Some(ended) = listing.take(*byte) {
                write_line(ended, &mut bus, &mut out)?;
            }
        }
        input.consume(count);
    }
    write_line(listing.last(), &mut bus, &mut out)?;
    out.flush()?;
    Ok(())
}

fn write_line<B: Bank, W: Write>(
    ended: NumberedLine,
    bus: &mut Bus<B>,
    out: &mut W,
) -> io::Result<()> {
    let number = ended.number;
    match ended.line {
        Line::Blank => Ok(()),
        Line::Word(word) => write_word(word, bus, out),
        Line::Other => writeln!(out, "line {number}: not a frame word"),
    }
}

fn write_word<B: Bank, W: Write>(word: u32, bus: &mut Bus<B>, out: &mut W) -> io::Result<()> {
    if let Ok(frame) = split(word) {
        writeln!(out, "{frame}")?;
    }
    writeln!(out, "{}", bus.frame(word))
}
