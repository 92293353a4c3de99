// The tables of the large case: m 4,096, n 64, F 65,536, C 16,384; and the calls of the factor on them.
use answers::Changed;
use book::Row;
use factor::Factor;
use questions::{Found, Reply};

pub type Heads = [u32; 4096];

pub type Parents = [u16; 4096];

pub type Rows = [u16; 65536];

pub type Next = [u32; 65536];

pub type BookHeads = [u32; 64];

pub type BookRows = [u16; 16384];

pub type BookNext = [u32; 16384];

pub type Windows = [u32; 128];

pub type Work = [u32; 312384];
// Touched columns or labels.
pub type Report = [u16; 4096];
// Ids, or a count or a minute for each.
pub type Ids = [u32; 64];
// The rows of all columns.
pub type RowList = [u32; 16384];

// Opens with f factor records, and gives the record; one of sizes 0 where it is refused.
pub fn open(
    heads: &mut Heads,
    parents: &mut Parents,
    rows: &mut Rows,
    counts: &mut Rows,
    next: &mut Next,
    book_heads: &mut BookHeads,
    book_rows: &mut BookRows,
    book_next: &mut BookNext,
    windows: &mut Windows,
    work: &mut Work,
    f: u32,
) -> Factor {
    let opening = Factor::open(
        4096, 64, f, 16384, 0, 0, 0, heads, parents, rows, counts, next, book_heads, book_rows,
        book_next, windows, work,
    );
    let Ok(record) = opening else {
        return Factor {
            m: 0,
            n: 0,
            f: 0,
            c: 0,
            free: 0,
            book_free: 0,
            grade2: 0,
            grade3: 0,
            grade4: 0,
            clock: 0,
        };
    };
    record
}

// Adds a batch; one list has its first and its second minutes.
pub fn add(
    record: Factor,
    heads: &Heads,
    parents: &mut Parents,
    rows: &mut Rows,
    counts: &mut Rows,
    next: &mut Next,
    book_heads: &mut BookHeads,
    book_rows: &mut BookRows,
    book_next: &mut BookNext,
    windows: &mut Windows,
    work: &mut Work,
    touched: &mut Report,
    labels: &mut Report,
    ids: &Ids,
    row_counts: &Ids,
    row_list: &RowList,
    minutes: &Ids,
) -> Changed {
    changes::add(
        record, heads, parents, rows, counts, next, book_heads, book_rows, book_next, windows,
        work, touched, labels, ids, row_counts, row_list, minutes, minutes,
    )
}

pub fn remove(
    record: Factor,
    heads: &Heads,
    parents: &mut Parents,
    rows: &mut Rows,
    counts: &mut Rows,
    next: &mut Next,
    book_heads: &mut BookHeads,
    book_rows: &mut BookRows,
    book_next: &mut BookNext,
    windows: &mut Windows,
    work: &mut Work,
    touched: &mut Report,
    labels: &mut Report,
    ids: &Ids,
) -> Changed {
    changes::remove(
        record, heads, parents, rows, counts, next, book_heads, book_rows, book_next, windows,
        work, touched, labels, ids,
    )
}

pub fn check(
    record: Factor,
    heads: &Heads,
    parents: &Parents,
    rows: &Rows,
    counts: &Rows,
    next: &Next,
    book_heads: &BookHeads,
    book_rows: &BookRows,
    book_next: &BookNext,
    windows: &Windows,
    work: &mut Work,
) -> Reply {
    record.check(
        heads, parents, rows, counts, next, book_heads, book_rows, book_next, windows, work,
    )
}

pub fn next_row(
    record: Factor,
    heads: &Heads,
    parents: &Parents,
    rows: &Rows,
    counts: &Rows,
    next: &Next,
    book_heads: &BookHeads,
    book_rows: &BookRows,
    book_next: &BookNext,
    windows: &Windows,
    work: &mut Work,
    i: u32,
    j: u32,
) -> Found {
    record.next_row(
        heads,
        parents,
        rows,
        counts,
        next,
        book_heads,
        book_rows,
        book_next,
        windows,
        work,
        Row(i),
        Row(j),
    )
}

pub fn path(
    record: Factor,
    heads: &Heads,
    parents: &Parents,
    rows: &Rows,
    counts: &Rows,
    next: &Next,
    book_heads: &BookHeads,
    book_rows: &BookRows,
    book_next: &BookNext,
    windows: &Windows,
    work: &mut Work,
    list: &mut [u32],
    j: u32,
) -> Reply {
    record.path(
        heads,
        parents,
        rows,
        counts,
        next,
        book_heads,
        book_rows,
        book_next,
        windows,
        work,
        list,
        Row(j),
        0,
    )
}

pub fn column(
    record: Factor,
    heads: &Heads,
    parents: &Parents,
    rows: &Rows,
    counts: &Rows,
    next: &Next,
    book_heads: &BookHeads,
    book_rows: &BookRows,
    book_next: &BookNext,
    windows: &Windows,
    work: &mut Work,
    list: &mut [u32],
    j: u32,
) -> Reply {
    record.column(
        heads,
        parents,
        rows,
        counts,
        next,
        book_heads,
        book_rows,
        book_next,
        windows,
        work,
        list,
        Row(j),
        0,
    )
}

pub fn meets(
    record: Factor,
    heads: &Heads,
    parents: &Parents,
    rows: &Rows,
    counts: &Rows,
    next: &Next,
    book_heads: &BookHeads,
    book_rows: &BookRows,
    book_next: &BookNext,
    windows: &Windows,
    work: &mut Work,
    list: &mut [u32],
    i: u32,
) -> Reply {
    record.meets(
        heads,
        parents,
        rows,
        counts,
        next,
        book_heads,
        book_rows,
        book_next,
        windows,
        work,
        list,
        Row(i),
        0,
    )
}

pub fn common(
    record: Factor,
    heads: &Heads,
    parents: &Parents,
    rows: &Rows,
    counts: &Rows,
    next: &Next,
    book_heads: &BookHeads,
    book_rows: &BookRows,
    book_next: &BookNext,
    windows: &Windows,
    work: &mut Work,
    row_list: &[u32],
) -> Reply {
    record.common(
        heads, parents, rows, counts, next, book_heads, book_rows, book_next, windows, work,
        row_list,
    )
}
