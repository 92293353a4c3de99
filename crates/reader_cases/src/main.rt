// Columns read through the reader, a line each: row:multiplicity of an entry, `end` at the end, for a given number of reads. Sound tables, those of {1, 3}
// and {2, 3} after {1, 4} has left, with two free records; then the free records, record 0 and records past the tables; then tables whose first column
// is a cycle, which gives entries for ever.
#![tactic(auto)]

use pool::Rec;
use reader::{Entry, Reader};
use std::fmt;
use std::fmt::Write;

// Where the program prints.
#[derive(Drop)]
struct Out;

impl Write for Out {
    fn write_str(&mut self, s: &str) -> fmt::Result {
        if io::write_all(1, s.as_bytes()) {
            Ok(())
        } else {
            Err(fmt::Error)
        }
    }
}

// Writes what was read: ` row:multiplicity`, or ` end`.
fn tell(e: Option<Entry>) -> fmt::Result {
    match e {
        Some(Entry { row, count, .. }) => write!(Out, " {row}:{count}"),
        None => write!(Out, " end"),
    }
}

// Writes what so many reads from a record on give.
fn show(rows: &[u16], counts: &[u16], next: &[u32], from: u32, reads: u32) -> fmt::Result {
    write!(Out, "from {from}:")?;
    let mut reader = Reader::new(rows, counts, next, Rec(from));
    for _ in 0..reads {
        tell(reader.read())?;
    }
    writeln!(Out)
}

// The columns of sound tables, each to its end and twice past it; then a free record, record 0 and records past the tables.
fn sound() -> fmt::Result {
    let rows = [1u16, 2, 3, 4, 5, 3, 0, 3, 0];
    let counts = [2u16, 2, 3, 1, 1, 1, 0, 1, 0];
    let next = [6u32, 8, 0, 0, 0, 0, 9, 0, 0];
    writeln!(Out, "-- columns 1 to 5")?;
    show(&rows, &counts, &next, 1, 4)?;
    show(&rows, &counts, &next, 2, 4)?;
    show(&rows, &counts, &next, 3, 3)?;
    show(&rows, &counts, &next, 4, 3)?;
    show(&rows, &counts, &next, 5, 3)?;
    writeln!(Out, "-- free records, record 0, past the tables")?;
    show(&rows, &counts, &next, 7, 2)?;
    show(&rows, &counts, &next, 9, 2)?;
    show(&rows, &counts, &next, 0, 2)?;
    show(&rows, &counts, &next, 10, 2)?;
    show(&rows, &counts, &next, 4294967295, 2)?;
    writeln!(Out, "-- past one of the tables")?;
    show(&rows[..5], &counts, &next, 1, 3)?;
    show(&rows, &counts[..5], &next, 1, 3)?;
    show(&rows, &counts, &next[..5], 1, 3)
}

// Record 6's next is record 1: there is an entry after every entry.
fn cycle() -> fmt::Result {
    let rows = [1u16, 2, 3, 4, 5, 3, 0, 3, 0];
    let counts = [2u16, 2, 3, 1, 1, 1, 0, 1, 0];
    let next = [6u32, 8, 0, 0, 0, 1, 9, 0, 0];
    writeln!(Out, "-- a cycle")?;
    show(&rows, &counts, &next, 1, 7)
}

fn main() {
    let _ = sound();
    let _ = cycle();
}
