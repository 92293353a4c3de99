// Opens a factor, then lays tables with three columns, then the same with windows and a fourth column outside its window; and for each damages the record's limits
// of the grades, then every table one place at a time with several values, then the clock: a line for the limits, for each place and for the clock, a character
// for each value, what `check` answers: '.' for sound, its number else; 'n', 'm' or 'c' where the next row of a column, the columns that meet a row, or the common
// row of two, are not refused by the same number.
#![tactic(auto)]

mod answers;
mod damage;

use answers::answer;
use damage::{ALL, Table, damaged, places};
use factor::Factor;

// Tables for m 5, n 8, F 9 and C 16.
#[derive(Clone, Copy)]
struct Tables {
    heads: [u32; 5],
    parents: [u16; 5],
    rows: [u16; 9],
    counts: [u16; 9],
    next: [u32; 9],
    book_heads: [u32; 8],
    book_rows: [u16; 16],
    book_next: [u32; 16],
    windows: [u32; 16],
}

// The values that a place, or the clock, is damaged with.
const VALUES: [u32; 8] = [0, 1, 2, 3, 4, 6, 9, 4294967295];

// Writes what check answers for each value at one place.
fn show_place(record: Factor, t: Tables, table: Table, place: usize) {
    let mut line = [b'\n'; 9];
    for (sign, value) in line.iter_mut().zip(VALUES) {
        *sign = answer(record, damaged(t, table, place, value));
    }
    io::write_all(1, &line);
}

// The record with other limits of the grades.
fn limited(record: Factor, grade2: u32, grade3: u32, grade4: u32) -> Factor {
    Factor {
        grade2,
        grade3,
        grade4,
        ..record
    }
}

// Writes what check answers for limits that break the rule: zeros, the first below 2, equal ones, falling ones; then for some that keep it.
fn show_limits(record: Factor, t: Tables) {
    let line = [
        answer(limited(record, 0, 0, 0), t),
        answer(limited(record, 0, 2, 3), t),
        answer(limited(record, 1, 2, 3), t),
        answer(limited(record, 2, 2, 3), t),
        answer(limited(record, 2, 3, 3), t),
        answer(limited(record, 3, 2, 4), t),
        answer(limited(record, 2, 4, 3), t),
        answer(limited(record, 2, 3, 4), t),
        answer(limited(record, 4294967293, 4294967294, 4294967295), t),
        b'\n',
    ];
    io::write_all(1, &line);
}

// The record with another clock.
fn clocked(record: Factor, clock: u32) -> Factor {
    Factor { clock, ..record }
}

// Writes what check answers for each value of the clock.
fn show_clock(record: Factor, t: Tables) {
    let mut line = [b'\n'; 9];
    for (sign, clock) in line.iter_mut().zip(VALUES) {
        *sign = answer(clocked(record, clock), t);
    }
    io::write_all(1, &line);
}

// Writes what check answers for the tables, then a line for the limits, for each place of each table, and for the clock.
fn show(record: Factor, t: Tables) {
    let first = [answer(record, t), b'\n'];
    io::write_all(1, &first);
    show_limits(record, t);
    for table in ALL {
        for place in 0..places(table) {
            show_place(record, t, table, place);
        }
    }
    show_clock(record, t);
}

// ---- tables

// The tables of the columns {1, 3}, {1, 4} and {2, 3}.
fn laid() -> Tables {
    Tables {
        heads: [1, 2, 3, 4, 5],
        parents: [3, 3, 4, 0, 0],
        rows: [1, 2, 3, 4, 5, 3, 4, 3, 4],
        counts: [3, 2, 3, 2, 1, 1, 1, 1, 1],
        next: [6, 8, 9, 0, 0, 7, 0, 0, 0],
        book_heads: [1, 3, 5, 0, 0, 0, 0, 0],
        book_rows: [1, 3, 1, 4, 2, 3, 0, 0, 0, 0, 0, 0, 0, 0, 0, 0],
        book_next: [2, 0, 4, 0, 6, 0, 8, 9, 10, 11, 12, 13, 14, 15, 16, 0],
        windows: [0; 16],
    }
}

// The same, where at minute 3 the first column has no window, the second counts from minute 2 up to 6, the third from minute 0 up to 9; and a fourth, {1, 2, 5}, is
// booked from minute 4 up to 9.
fn windowed() -> Tables {
    Tables {
        book_heads: [1, 3, 5, 7, 0, 0, 0, 0],
        book_rows: [1, 3, 1, 4, 2, 3, 1, 2, 5, 0, 0, 0, 0, 0, 0, 0],
        book_next: [2, 0, 4, 0, 6, 0, 8, 9, 0, 11, 12, 13, 14, 15, 16, 0],
        windows: [0, 2, 0, 4, 0, 0, 0, 0, 0, 6, 9, 9, 0, 0, 0, 0],
        ..laid()
    }
}

// The record of such tables.
fn record(book_free: u32, clock: u32) -> Factor {
    Factor {
        m: 5,
        n: 8,
        f: 9,
        c: 16,
        free: 0,
        book_free,
        grade2: 256,
        grade3: 4096,
        grade4: 65536,
        clock,
    }
}

// Opens a factor and shows it.
fn show_opened() {
    let mut heads = [9u32; 5];
    let mut parents = [9u16; 5];
    let mut rows = [9u16; 9];
    let mut counts = [9u16; 9];
    let mut next = [9u32; 9];
    let mut book_heads = [9u32; 8];
    let mut book_rows = [9u16; 16];
    let mut book_next = [9u32; 16];
    let mut windows = [9u32; 16];
    let mut work = [7u32; 1124];
    let opening = Factor::open(
        5,
        8,
        9,
        16,
        0,
        0,
        0,
        &mut heads,
        &mut parents,
        &mut rows,
        &mut counts,
        &mut next,
        &mut book_heads,
        &mut book_rows,
        &mut book_next,
        &mut windows,
        &mut work,
    );
    let Ok(record) = opening else {
        return;
    };
    show(
        record,
        Tables {
            heads,
            parents,
            rows,
            counts,
            next,
            book_heads,
            book_rows,
            book_next,
            windows,
        },
    );
}

fn main() {
    show_opened();
    show(record(7, 0), laid());
    show(record(10, 3), windowed());
}
