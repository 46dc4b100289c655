// Tables of rows that are filled or refused, and what filled ones show: a line for each.
#![tactic(auto)]

use mmd::mmd::Mmd;
use rows::row::Row;
use std::alloc::Global;
use std::io;
use std::io::{BufWriter, Write};
use table_mmd::fill::FillRefusal;
use table_mmd::table::TableMmd;

struct Case {
    name: &'static str,
    rows: &'static [Row],
}

// A row in the order of a data sheet's columns; a macro, since a constant's value cannot call a function.
macro_rules! row {
    ($register:expr, $high:expr, $low:expr, $kind:expr, $number:expr) => {
        Row {
            register: $register,
            high: $high,
            low: $low,
            kind: $kind,
            number: $number,
        }
    };
}

const CASES: [Case; 22] = [
    Case {
        name: "no row",
        rows: &[],
    },
    Case {
        name: "kind 0",
        rows: &[row!(0, 0, 0, 0, 0)],
    },
    Case {
        name: "kind 10",
        rows: &[row!(0, 0, 0, 1, 1), row!(1, 0, 0, 10, 0)],
    },
    Case {
        name: "high 16",
        rows: &[row!(0, 0, 0, 1, 1), row!(1, 16, 0, 1, 0)],
    },
    Case {
        name: "low above high",
        rows: &[row!(1, 2, 3, 1, 0)],
    },
    Case {
        name: "latch of two bits",
        rows: &[row!(1, 1, 0, 3, 0)],
    },
    Case {
        name: "half of fifteen bits",
        rows: &[row!(1, 15, 1, 8, 0)],
    },
    Case {
        name: "value too wide",
        rows: &[row!(0, 0, 0, 1, 1), row!(1, 3, 2, 1, 4)],
    },
    Case {
        name: "value just fits",
        rows: &[row!(0, 0, 0, 1, 1), row!(1, 3, 2, 1, 3)],
    },
    Case {
        name: "line 32",
        rows: &[row!(1, 0, 0, 2, 32)],
    },
    Case {
        name: "counter 16",
        rows: &[row!(1, 5, 0, 7, 16)],
    },
    Case {
        name: "self-clearing 1",
        rows: &[row!(1, 0, 0, 6, 1)],
    },
    Case {
        name: "register falls",
        rows: &[row!(5, 0, 0, 1, 0), row!(4, 0, 0, 1, 0)],
    },
    Case {
        name: "spans touch",
        rows: &[row!(5, 3, 0, 1, 0), row!(5, 4, 3, 1, 0)],
    },
    Case {
        name: "spans beside",
        rows: &[row!(5, 3, 0, 1, 0), row!(5, 5, 4, 1, 0)],
    },
    Case {
        name: "both halves",
        rows: &[row!(2, 15, 0, 9, 2), row!(3, 15, 0, 8, 2)],
    },
    Case {
        name: "short twice",
        rows: &[row!(1, 5, 0, 7, 2), row!(2, 5, 0, 7, 2)],
    },
    Case {
        name: "half beside short",
        rows: &[row!(1, 5, 0, 7, 2), row!(2, 15, 0, 9, 2)],
    },
    Case {
        name: "short beside halves",
        rows: &[
            row!(2, 15, 0, 9, 2),
            row!(3, 15, 0, 8, 2),
            row!(4, 5, 0, 7, 2),
        ],
    },
    Case {
        name: "low half twice",
        rows: &[row!(2, 15, 0, 9, 2), row!(3, 15, 0, 9, 2)],
    },
    Case {
        name: "low half alone",
        rows: &[row!(1, 5, 0, 7, 3), row!(2, 15, 0, 9, 2)],
    },
    Case {
        name: "two halves alone",
        rows: &[row!(2, 15, 0, 9, 2), row!(3, 15, 0, 8, 1)],
    },
];

// Kinds 1 and 7 at one bit and at sixteen.
const WIDTHS: [Row; 4] = [
    row!(0, 0, 0, 1, 1),
    row!(1, 15, 0, 1, 0xfffe),
    row!(2, 3, 3, 7, 0),
    row!(3, 15, 0, 7, 1),
];

fn main(rt: HostRuntime) -> io::Result<()> {
    let heap = rt.alloc();
    let mut out = BufWriter::new(heap, rt.stdout())?;
    for case in &CASES {
        write_filled(TableMmd::fill(heap, case.rows), case.name, &mut out)?;
    }
    write_limits(heap, &mut out)?;
    write_steps(heap, &mut out)?;
    out.flush()
}

fn write_filled<W: Write>(
    filled: Result<TableMmd, FillRefusal>,
    name: &str,
    out: &mut W,
) -> io::Result<()> {
    match filled {
        Ok(_) => writeln!(out, "{name}: filled"),
        Err(FillRefusal::Faulty(at)) => {
            let number = at.fault.number();
            let place = at.place;
            writeln!(out, "{name}: {number} at {place}")
        }
        Err(FillRefusal::Memory) => writeln!(out, "{name}: no memory"),
    }
}

// 64 rows, and one more.
fn write_limits<W: Write>(heap: Global, out: &mut W) -> io::Result<()> {
    let mut rows: Vec<Row> = (0u16..65)
        .map(|register| row!(register, 15, 0, 1, 0))
        .collect(heap)?;
    write_filled(TableMmd::fill(heap, rows.as_slice()), "65 rows", out)?;
    rows.truncate(64);
    write_filled(TableMmd::fill(heap, rows.as_slice()), "64 rows", out)
}

fn write_steps<W: Write>(heap: Global, out: &mut W) -> io::Result<()> {
    match TableMmd::fill(heap, &WIDTHS) {
        Ok(mut table) => {
            write_read(&mut table, 0, out)?;
            write_read(&mut table, 1, out)?;
            write_count(&mut table, 0, 5, out)?;
            write_read(&mut table, 2, out)?;
            write_read(&mut table, 2, out)?;
            write_count(&mut table, 1, 65535, out)?;
            write_count(&mut table, 1, 1, out)?;
            write_read(&mut table, 3, out)?;
            write_read(&mut table, 3, out)?;
            write_count(&mut table, 2, 1, out)
        }
        Err(refusal) => write_filled(Err(refusal), "widths", out),
    }
}

fn write_read<W: Write>(table: &mut TableMmd, register: u16, out: &mut W) -> io::Result<()> {
    let word = table.read(register);
    writeln!(out, "register {register}: {word:#06x}")
}

fn write_count<W: Write>(
    table: &mut TableMmd,
    counter: u8,
    amount: u16,
    out: &mut W,
) -> io::Result<()> {
    match table.count(counter, amount) {
        Ok(()) => writeln!(out, "counter {counter}: {amount} more"),
        Err(refusal) => {
            let number = refusal.number();
            writeln!(out, "counter {counter}: refused {number}")
        }
    }
}
