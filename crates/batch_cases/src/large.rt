// 64 columns of 256 rows each, in one batch, at m 4,096. All rows are multiples of 10: column k holds 256 of them that follow one another, from the k-th
// on, and from the 130th on where k is 40 or more. The patterns then have 65,536 entries in all, as many as F allows.
ghost use Rattle.std.specs.Prelude.{◌≤◌};

use crate::large_shown::{ask, state, tell};
use crate::large_tables;
use crate::large_tables::{
    BookHeads, BookNext, BookRows, Heads, Ids, Next, Parents, RowList, Rows, Windows, Work,
};
use crate::lines::title;
use factor::Factor;

// Where column k starts.
fn start(k: u32) -> u32
    ensures { result ≤ 130 }
{
    if k < 40 { k } else { 130 }
}

// The rows of all columns, one column after another.
fn write_rows(list: &mut RowList) {
    for (i, row) in list.iter_mut().enumerate() {
        let i = i as u32;
        *row = 10 * (start(i / 256 + 1) + i % 256);
    }
}

// The ids 1 to 64.
fn all_ids() -> Ids {
    let mut ids = [0u32; 64];
    for (k, id) in ids.iter_mut().enumerate() {
        *id = k as u32 + 1;
    }
    ids
}

// ---- the case

// Opens with f factor records and adds the columns.
fn add_all(
    heads: &mut Heads,
    parents: &mut Parents,
    rows: &mut Rows,
    counts: &mut Rows,
    next: &mut Next,
    book_heads: &mut BookHeads,
    book_rows: &mut BookRows,
    book_next: &mut BookNext,
    windows: &mut Windows,
    work: &mut Work,
    ids: &Ids,
    row_counts: &Ids,
    row_list: &RowList,
    f: u32,
) -> Factor {
    let mut touched = [9u16; 4096];
    let mut labels = [9u16; 4096];
    let record = large_tables::open(
        heads, parents, rows, counts, next, book_heads, book_rows, book_next, windows, work, f,
    );
    let changed = large_tables::add(
        record,
        heads,
        parents,
        rows,
        counts,
        next,
        book_heads,
        book_rows,
        book_next,
        windows,
        work,
        &mut touched,
        &mut labels,
        ids,
        row_counts,
        row_list,
        &[0; 64],
    );
    tell(changed, &touched, &labels);
    state(
        changed.factor,
        heads,
        parents,
        rows,
        counts,
        next,
        book_heads,
        book_rows,
        book_next,
        windows,
        work,
    );
    let after = changed.factor;
    after
}

// Removes all columns.
fn remove_all(
    record: Factor,
    heads: &Heads,
    parents: &mut Parents,
    rows: &mut Rows,
    counts: &mut Rows,
    next: &mut Next,
    book_heads: &mut BookHeads,
    book_rows: &mut BookRows,
    book_next: &mut BookNext,
    windows: &mut Windows,
    work: &mut Work,
    ids: &Ids,
) {
    let mut touched = [9u16; 4096];
    let mut labels = [9u16; 4096];
    let changed = large_tables::remove(
        record,
        heads,
        parents,
        rows,
        counts,
        next,
        book_heads,
        book_rows,
        book_next,
        windows,
        work,
        &mut touched,
        &mut labels,
        ids,
    );
    tell(changed, &touched, &labels);
    state(
        changed.factor,
        heads,
        parents,
        rows,
        counts,
        next,
        book_heads,
        book_rows,
        book_next,
        windows,
        work,
    );
}

// With one factor record fewer than the patterns need, then with as many; then all columns are removed.
fn all(
    heads: &mut Heads,
    parents: &mut Parents,
    rows: &mut Rows,
    counts: &mut Rows,
    next: &mut Next,
    book_heads: &mut BookHeads,
    book_rows: &mut BookRows,
    book_next: &mut BookNext,
    windows: &mut Windows,
    work: &mut Work,
    ids: &Ids,
    row_counts: &Ids,
    row_list: &RowList,
) {
    title("64 columns, F 65535");
    add_all(
        heads, parents, rows, counts, next, book_heads, book_rows, book_next, windows, work, ids,
        row_counts, row_list, 65535,
    );
    title("64 columns, F 65536");
    let full = add_all(
        heads, parents, rows, counts, next, book_heads, book_rows, book_next, windows, work, ids,
        row_counts, row_list, 65536,
    );
    ask(
        full, heads, parents, rows, counts, next, book_heads, book_rows, book_next, windows, work,
    );
    title("all removed");
    remove_all(
        full, heads, parents, rows, counts, next, book_heads, book_rows, book_next, windows, work,
        ids,
    );
}

pub fn run() {
    let mut list = [0u32; 16384];
    write_rows(&mut list);
    let ids = all_ids();
    let mut heads = [9u32; 4096];
    let mut parents = [9u16; 4096];
    let mut rows = [9u16; 65536];
    let mut counts = [9u16; 65536];
    let mut next = [9u32; 65536];
    let mut book_heads = [9u32; 64];
    let mut book_rows = [9u16; 16384];
    let mut book_next = [9u32; 16384];
    let mut windows = [9u32; 128];
    let mut work = [7u32; 312384];
    all(
        &mut heads,
        &mut parents,
        &mut rows,
        &mut counts,
        &mut next,
        &mut book_heads,
        &mut book_rows,
        &mut book_next,
        &mut windows,
        &mut work,
        &ids,
        &[256; 64],
        &list,
    );
}
