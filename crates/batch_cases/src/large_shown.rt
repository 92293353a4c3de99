// What the large case prints: the report of a batch, the state of the tables, the answers to questions.
use crate::large_rows::about_rows;
use crate::large_tables::{
    BookHeads, BookNext, BookRows, Heads, Next, Parents, Report, Rows, Windows, Work,
};
use crate::out::Out;
use crate::{large_tables, lines};
use answers::Changed;
use factor::Factor;
use std::fmt::Write;

// ---- reports

// The places of the touched columns that are shown with their labels.
const SHOWN: [usize; 7] = [0, 37, 38, 128, 129, 384, 385];

// The report of a batch, and some of its labels.
pub fn tell(changed: Changed, touched: &Report, labels: &Report) {
    lines::report(changed);
    if changed.number != 0 {
        return;
    }
    lines::text("labels");
    for place in SHOWN {
        let _ = write!(Out, " {}:{}", touched[place], labels[place]);
    }
    lines::end();
}

// ---- fresh patterns

// Whether the record holds row j alone, once.
fn is_diagonal(rows: &Rows, counts: &Rows, next: &Next, head: u32, j: u32) -> bool {
    if head < 1 || 65536 < head {
        return false;
    }
    let at = (head - 1) as usize;
    u32::from(rows[at]) == j && counts[at] == 1 && next[at] == 0
}

// How many columns have the fresh pattern and no parent.
fn fresh(heads: &Heads, parents: &Parents, rows: &Rows, counts: &Rows, next: &Next) -> u32 {
    let mut count: u32 = 0;
    for k in 0..4096 {
        if parents[k] == 0 && is_diagonal(rows, counts, next, heads[k], k as u32 + 1) {
            count += 1;
        }
    }
    count
}

// What check answers, and how many columns are fresh.
pub fn state(
    record: Factor,
    heads: &Heads,
    parents: &Parents,
    rows: &Rows,
    counts: &Rows,
    next: &Next,
    book_heads: &BookHeads,
    book_rows: &BookRows,
    book_next: &BookNext,
    windows: &Windows,
    work: &mut Work,
) {
    lines::text("check");
    lines::reply(large_tables::check(
        record, heads, parents, rows, counts, next, book_heads, book_rows, book_next, windows, work,
    ));
    lines::text("; fresh");
    lines::word(fresh(heads, parents, rows, counts, next));
    lines::end();
}

// ---- questions

// The lengths of the path and of the pattern of row j.
fn lengths(
    record: Factor,
    heads: &Heads,
    parents: &Parents,
    rows: &Rows,
    counts: &Rows,
    next: &Next,
    book_heads: &BookHeads,
    book_rows: &BookRows,
    book_next: &BookNext,
    windows: &Windows,
    work: &mut Work,
    j: u32,
) {
    let mut list = [0u32; 512];
    lines::text("lengths of path and column of");
    lines::word(j);
    lines::text(":");
    lines::reply(large_tables::path(
        record, heads, parents, rows, counts, next, book_heads, book_rows, book_next, windows,
        work, &mut list, j,
    ));
    lines::reply(large_tables::column(
        record, heads, parents, rows, counts, next, book_heads, book_rows, book_next, windows,
        work, &mut list, j,
    ));
    lines::end();
}

// The first row at or above i in column j, and its multiplicity.
fn next_row(
    record: Factor,
    heads: &Heads,
    parents: &Parents,
    rows: &Rows,
    counts: &Rows,
    next: &Next,
    book_heads: &BookHeads,
    book_rows: &BookRows,
    book_next: &BookNext,
    windows: &Windows,
    work: &mut Work,
    i: u32,
    j: u32,
) {
    let found = large_tables::next_row(
        record, heads, parents, rows, counts, next, book_heads, book_rows, book_next, windows,
        work, i, j,
    );
    lines::next_row(i, j, found);
}

// Rows that are asked for, each with the column that it is asked for in.
const ASKED: [(u32, u32); 7] = [
    (10, 10),
    (1300, 1300),
    (2940, 1300),
    (2950, 1300),
    (3850, 3850),
    (3850, 1290),
    (1291, 1290),
];

// The questions on the full factor.
pub fn ask(
    record: Factor,
    heads: &Heads,
    parents: &Parents,
    rows: &Rows,
    counts: &Rows,
    next: &Next,
    book_heads: &BookHeads,
    book_rows: &BookRows,
    book_next: &BookNext,
    windows: &Windows,
    work: &mut Work,
) {
    lengths(
        record, heads, parents, rows, counts, next, book_heads, book_rows, book_next, windows,
        work, 10,
    );
    about_rows(
        record, heads, parents, rows, counts, next, book_heads, book_rows, book_next, windows, work,
    );
    for (i, j) in ASKED {
        next_row(
            record, heads, parents, rows, counts, next, book_heads, book_rows, book_next, windows,
            work, i, j,
        );
    }
}
