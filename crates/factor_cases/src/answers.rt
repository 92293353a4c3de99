// What `check` answers for some tables, and whether the questions answer alike. The tables stand before the record: a search for a table's length does not get past
// the record's fields.
use crate::Tables;
use book::Row;
use factor::Factor;

// A character for check's number.
fn sign(number: u32) -> u8 {
    match number {
        0 => b'.',
        1..=6 => b'0' + number as u8,
        _ => b'?',
    }
}

// Check's number.
fn checked(t: Tables, record: Factor) -> u32 {
    let mut work = [7u32; 1124];
    let reply = record.check(
        &t.heads,
        &t.parents,
        &t.rows,
        &t.counts,
        &t.next,
        &t.book_heads,
        &t.book_rows,
        &t.book_next,
        &t.windows,
        &mut work,
    );
    reply.number
}

// Whether the question for the next row from row 2 on in column 1 answers with the number, and with neither row nor multiplicity where it is refused.
fn finds(t: Tables, record: Factor, number: u32) -> bool {
    let mut work = [7u32; 1124];
    let found = record.next_row(
        &t.heads,
        &t.parents,
        &t.rows,
        &t.counts,
        &t.next,
        &t.book_heads,
        &t.book_rows,
        &t.book_next,
        &t.windows,
        &mut work,
        Row(2),
        Row(1),
    );
    found.number == number && (number == 0 || (found.row == 0 && found.multiplicity == 0))
}

// The number of the question for the columns that meet row 3.
fn met(t: Tables, record: Factor) -> u32 {
    let mut work = [7u32; 1124];
    let mut list = [9u32; 5];
    let reply = record.meets(
        &t.heads,
        &t.parents,
        &t.rows,
        &t.counts,
        &t.next,
        &t.book_heads,
        &t.book_rows,
        &t.book_next,
        &t.windows,
        &mut work,
        &mut list,
        Row(3),
        0,
    );
    reply.number
}

// The number of the question for the smallest row on the paths of rows 1 and 2.
fn joined(t: Tables, record: Factor) -> u32 {
    let mut work = [7u32; 1124];
    let reply = record.common(
        &t.heads,
        &t.parents,
        &t.rows,
        &t.counts,
        &t.next,
        &t.book_heads,
        &t.book_rows,
        &t.book_next,
        &t.windows,
        &mut work,
        &[1, 2],
    );
    reply.number
}

// What check answers, or which question does not answer with it.
pub fn answer(record: Factor, t: Tables) -> u8 {
    let number = checked(t, record);
    if !finds(t, record, number) {
        return b'n';
    }
    if met(t, record) != number {
        return b'm';
    }
    if joined(t, record) != number {
        return b'c';
    }
    sign(number)
}
