// Questions one after another through the unchecked entries, as a proved caller asks them, for the benchmark alone: the tables are read through once, then
// each question costs only what it reads. No part of the product's interface.
ghost use Rattle.std.specs.Prelude.{◌≤◌, length};
ghost use Rattle.tables.specs.Tables.{tables_of};
ghost use Rattle.factor.specs.Entries.{state_of};
ghost use Rattle.admission.specs.Admission.{Usable, CanUse};
ghost use Rattle.bench_driver.specs.Runs.{AsksOn};

use book::Row;
use factor::Factor;

// How a run of questions ended: the number that refused one or 0, the questions answered, and the sum of their values.
#[repr(C)]
#[derive(Clone, Copy)]
pub struct Asked {
    pub number: u32,
    pub done: u32,
    pub sum: u64,
}

// The rows that a run names at most, so that the sum of their values fits 64 bits.
const MOST_NAMED: usize = 1048576;

// The columns that meet each row of the list, from place 0 of the answer's list on, until one is refused.
fn meets_each(
    factor: Factor,
    heads: &[u32],
    parents: &[u16],
    rows: &[u16],
    counts: &[u16],
    next: &[u32],
    book_heads: &[u32],
    book_rows: &[u16],
    book_next: &[u32],
    windows: &[u32],
    work: &mut [u32],
    list: &mut [u32],
    row_list: &[u32],
) -> Asked
    requires usable { CanUse (state_of factor) (tables_of heads.now parents.now rows.now counts.now next.now book_heads.now book_rows.now book_next.now windows.now) work.old }
    requires few { length row_list.now ≤ 1048576 }
    ensures { CanUse (state_of factor) (tables_of heads.now parents.now rows.now counts.now next.now book_heads.now book_rows.now book_next.now windows.now) work.new }
{
    let mut sum: u64 = 0;
    for (done, &row) in row_list.iter().enumerate() {
        let x = factor.meets_unchecked(
            heads,
            parents,
            rows,
            counts,
            next,
            book_heads,
            book_rows,
            book_next,
            windows,
            work,
            list,
            Row(row),
            0,
        );
        let number = x.number;
        if number != 0 {
            return Asked {
                number,
                done: done as u32,
                sum,
            };
        }
        sum += x.value as u64;
    }
    Asked {
        number: 0,
        done: row_list.len() as u32,
        sum,
    }
}

// Reads the tables through once, then asks for the columns that meet each row of the list. Numbers 1 to 6 refuse the run, 7 one that names too many rows.
#[unsafe(no_mangle)]
pub extern "C" fn bench_meets(
    factor: Factor,
    heads: &[u32],
    parents: &[u16],
    rows: &[u16],
    counts: &[u16],
    next: &[u32],
    book_heads: &[u32],
    book_rows: &[u16],
    book_next: &[u32],
    windows: &[u32],
    work: &mut [u32],
    list: &mut [u32],
    row_list: &[u32],
) -> Asked
    ensures { AsksOn result (state_of factor) (tables_of heads.now parents.now rows.now counts.now next.now book_heads.now book_rows.now book_next.now windows.now) work.new }
{
    let found = factor.check(
        heads, parents, rows, counts, next, book_heads, book_rows, book_next, windows, work,
    );
    let number = found.number;
    if number != 0 {
        return Asked {
            number,
            done: 0,
            sum: 0,
        };
    }
    if MOST_NAMED < row_list.len() {
        return Asked {
            number: 7,
            done: 0,
            sum: 0,
        };
    }
    meets_each(
        factor, heads, parents, rows, counts, next, book_heads, book_rows, book_next, windows,
        work, list, row_list,
    )
}

// The common row of each r rows of the list, one group after another, until one is refused; rows left over are not asked about.
fn common_each(
    factor: Factor,
    heads: &[u32],
    parents: &[u16],
    rows: &[u16],
    counts: &[u16],
    next: &[u32],
    book_heads: &[u32],
    book_rows: &[u16],
    book_next: &[u32],
    windows: &[u32],
    row_list: &[u32],
    r: usize,
) -> Asked
    requires usable { Usable (state_of factor) (tables_of heads.now parents.now rows.now counts.now next.now book_heads.now book_rows.now book_next.now windows.now) }
    requires few { length row_list.now ≤ 1048576 }
    requires some { 1 ≤ r }
{
    let mut first: usize = 0;
    let mut done: u32 = 0;
    let mut sum: u64 = 0;
    while r <= row_list.len() - first {
        let end = first + r;
        let x = factor.common_unchecked(
            heads,
            parents,
            rows,
            counts,
            next,
            book_heads,
            book_rows,
            book_next,
            windows,
            &row_list[first..end],
        );
        let number = x.number;
        if number != 0 {
            return Asked { number, done, sum };
        }
        sum += x.value as u64;
        done += 1;
        first = end;
    }
    Asked {
        number: 0,
        done,
        sum,
    }
}

// Reads the tables through once, then asks for the common row of each r rows of the list. Numbers 1 to 6 refuse the run, 7 one that names too many rows or
// has no row in a group.
#[unsafe(no_mangle)]
pub extern "C" fn bench_common(
    factor: Factor,
    heads: &[u32],
    parents: &[u16],
    rows: &[u16],
    counts: &[u16],
    next: &[u32],
    book_heads: &[u32],
    book_rows: &[u16],
    book_next: &[u32],
    windows: &[u32],
    work: &mut [u32],
    row_list: &[u32],
    r: usize,
) -> Asked
    ensures { AsksOn result (state_of factor) (tables_of heads.now parents.now rows.now counts.now next.now book_heads.now book_rows.now book_next.now windows.now) work.new }
{
    let found = factor.check(
        heads, parents, rows, counts, next, book_heads, book_rows, book_next, windows, work,
    );
    let number = found.number;
    if number != 0 {
        return Asked {
            number,
            done: 0,
            sum: 0,
        };
    }
    if MOST_NAMED < row_list.len() {
        return Asked {
            number: 7,
            done: 0,
            sum: 0,
        };
    }
    if r == 0 {
        return Asked {
            number: 7,
            done: 0,
            sum: 0,
        };
    }
    common_each(
        factor, heads, parents, rows, counts, next, book_heads, book_rows, book_next, windows,
        row_list, r,
    )
}

// The next row of each pair of the list, row then column, until one is refused; a number left over is not asked about. A question adds row and multiplicity.
fn next_each(
    factor: Factor,
    heads: &[u32],
    parents: &[u16],
    rows: &[u16],
    counts: &[u16],
    next: &[u32],
    book_heads: &[u32],
    book_rows: &[u16],
    book_next: &[u32],
    windows: &[u32],
    row_list: &[u32],
) -> Asked
    requires usable { Usable (state_of factor) (tables_of heads.now parents.now rows.now counts.now next.now book_heads.now book_rows.now book_next.now windows.now) }
    requires few { length row_list.now ≤ 1048576 }
{
    let (pairs, _) = row_list.as_chunks::<2>();
    let mut sum: u64 = 0;
    for (done, &[row, column]) in pairs.iter().enumerate() {
        let x = factor.next_row_unchecked(
            heads,
            parents,
            rows,
            counts,
            next,
            book_heads,
            book_rows,
            book_next,
            windows,
            Row(row),
            Row(column),
        );
        let number = x.number;
        if number != 0 {
            return Asked {
                number,
                done: done as u32,
                sum,
            };
        }
        sum += x.row as u64 + x.multiplicity as u64;
    }
    Asked {
        number: 0,
        done: pairs.len() as u32,
        sum,
    }
}

// Reads the tables through once, then asks for the next row of each pair of the list. Numbers 1 to 6 refuse the run, 7 one that names too many rows.
#[unsafe(no_mangle)]
pub extern "C" fn bench_next(
    factor: Factor,
    heads: &[u32],
    parents: &[u16],
    rows: &[u16],
    counts: &[u16],
    next: &[u32],
    book_heads: &[u32],
    book_rows: &[u16],
    book_next: &[u32],
    windows: &[u32],
    work: &mut [u32],
    row_list: &[u32],
) -> Asked
    ensures { AsksOn result (state_of factor) (tables_of heads.now parents.now rows.now counts.now next.now book_heads.now book_rows.now book_next.now windows.now) work.new }
{
    let found = factor.check(
        heads, parents, rows, counts, next, book_heads, book_rows, book_next, windows, work,
    );
    let number = found.number;
    if number != 0 {
        return Asked {
            number,
            done: 0,
            sum: 0,
        };
    }
    if MOST_NAMED < row_list.len() {
        return Asked {
            number: 7,
            done: 0,
            sum: 0,
        };
    }
    next_each(
        factor, heads, parents, rows, counts, next, book_heads, book_rows, book_next, windows,
        row_list,
    )
}
