// Tables with one place changed.
use crate::Tables;

// A table of the factor.
#[derive(Clone, Copy)]
pub enum Table {
    Heads,
    Parents,
    Rows,
    Counts,
    Next,
    BookHeads,
    BookRows,
    BookNext,
    Windows,
}

// All of them, in the order in which they are damaged.
pub const ALL: [Table; 9] = [
    Table::Heads,
    Table::Parents,
    Table::Rows,
    Table::Counts,
    Table::Next,
    Table::BookHeads,
    Table::BookRows,
    Table::BookNext,
    Table::Windows,
];

// A value as 16 bits hold it, or 0.
fn narrow(value: u32) -> u16 {
    u16::try_from(value).unwrap_or(0)
}

// Writes a value at a place, where the list has it.
fn put<T: Copy>(list: &mut [T], place: usize, value: T) {
    if let Some(x) = list.get_mut(place) {
        *x = value;
    }
}

// The tables with one place of a table changed, where it has that place.
pub fn damaged(t: Tables, table: Table, place: usize, value: u32) -> Tables {
    let mut x = t;
    match table {
        Table::Heads => put(&mut x.heads, place, value),
        Table::Parents => put(&mut x.parents, place, narrow(value)),
        Table::Rows => put(&mut x.rows, place, narrow(value)),
        Table::Counts => put(&mut x.counts, place, narrow(value)),
        Table::Next => put(&mut x.next, place, value),
        Table::BookHeads => put(&mut x.book_heads, place, value),
        Table::BookRows => put(&mut x.book_rows, place, narrow(value)),
        Table::BookNext => put(&mut x.book_next, place, value),
        Table::Windows => put(&mut x.windows, place, value),
    }
    x
}

// How many places a table has.
pub fn places(table: Table) -> usize {
    match table {
        Table::Heads | Table::Parents => 5,
        Table::Rows | Table::Counts | Table::Next => 9,
        Table::BookHeads => 8,
        Table::BookRows | Table::BookNext | Table::Windows => 16,
    }
}
