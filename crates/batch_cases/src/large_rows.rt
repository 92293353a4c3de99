// The questions about rows on the large case: the columns that meet a row, and the smallest row on the paths of all of some rows.
use crate::large_tables::{
    BookHeads, BookNext, BookRows, Heads, Next, Parents, Rows, Windows, Work,
};
use crate::{large_tables, lines};
use factor::Factor;

// The columns that meet row i: how many, the first and the 256th, and the place after these.
fn columns_of(
    record: Factor,
    heads: &Heads,
    parents: &Parents,
    rows: &Rows,
    counts: &Rows,
    next: &Next,
    book_heads: &BookHeads,
    book_rows: &BookRows,
    book_next: &BookNext,
    windows: &Windows,
    work: &mut Work,
    i: u32,
) {
    let mut list = [9u32; 512];
    lines::text("columns that meet");
    lines::word(i);
    lines::text(":");
    lines::reply(large_tables::meets(
        record, heads, parents, rows, counts, next, book_heads, book_rows, book_next, windows,
        work, &mut list, i,
    ));
    lines::text(";");
    lines::word(list[0]);
    lines::word(list[255]);
    lines::word(list[256]);
    lines::end();
}

// The smallest row on the paths of all rows that are named.
fn common(
    record: Factor,
    heads: &Heads,
    parents: &Parents,
    rows: &Rows,
    counts: &Rows,
    next: &Next,
    book_heads: &BookHeads,
    book_rows: &BookRows,
    book_next: &BookNext,
    windows: &Windows,
    work: &mut Work,
    row_list: &[u32],
) {
    lines::text("common row:");
    lines::reply(large_tables::common(
        record, heads, parents, rows, counts, next, book_heads, book_rows, book_next, windows,
        work, row_list,
    ));
    lines::end();
}

// Three rows of one path, and two rows whose paths do not join.
fn paths(
    record: Factor,
    heads: &Heads,
    parents: &Parents,
    rows: &Rows,
    counts: &Rows,
    next: &Next,
    book_heads: &BookHeads,
    book_rows: &BookRows,
    book_next: &BookNext,
    windows: &Windows,
    work: &mut Work,
) {
    common(
        record,
        heads,
        parents,
        rows,
        counts,
        next,
        book_heads,
        book_rows,
        book_next,
        windows,
        work,
        &[390, 10, 1290],
    );
    common(
        record,
        heads,
        parents,
        rows,
        counts,
        next,
        book_heads,
        book_rows,
        book_next,
        windows,
        work,
        &[10, 11],
    );
}

// A row that 256 columns hold, then paths.
pub fn about_rows(
    record: Factor,
    heads: &Heads,
    parents: &Parents,
    rows: &Rows,
    counts: &Rows,
    next: &Next,
    book_heads: &BookHeads,
    book_rows: &BookRows,
    book_next: &BookNext,
    windows: &Windows,
    work: &mut Work,
) {
    columns_of(
        record, heads, parents, rows, counts, next, book_heads, book_rows, book_next, windows,
        work, 3850,
    );
    paths(
        record, heads, parents, rows, counts, next, book_heads, book_rows, book_next, windows, work,
    );
}
