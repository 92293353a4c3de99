// What an accepted opening writes, within the sizes: the tables of L, those of the book, and zeros in the windows and the work table. Places beyond the sizes are as
// lent.
#![tactic(auto)]

ghost use Rattle.tables.specs.Tables.{tables_of, sizes_of};
ghost use Rattle.admission.specs.Admission.{HasPlaces};
ghost use Rattle.opening.specs.Written.{HoldColumns, ColumnsWritten, HoldBook, BookWritten, OpeningWritten};

use pool::Rec;

// The free head of L, then that of the book.
#[derive(Clone, Copy)]
pub struct Heads(pub Rec, pub Rec);

// Writes all tables of a fresh factor, and gives the free heads.
pub fn write(
    heads: &mut [u32],
    parents: &mut [u16],
    rows: &mut [u16],
    counts: &mut [u16],
    next: &mut [u32],
    book_heads: &mut [u32],
    book_rows: &mut [u16],
    book_next: &mut [u32],
    windows: &mut [u32],
    work: &mut [u32],
    m: u32,
    n: u32,
    f: u32,
    c: u32,
) -> Heads
    requires { HasPlaces (sizes_of m n f c) (tables_of heads.old parents.old rows.old counts.old next.old book_heads.old book_rows.old book_next.old windows.old) work.old }
    ensures { OpeningWritten (sizes_of m n f c) (tables_of heads.old parents.old rows.old counts.old next.old book_heads.old book_rows.old book_next.old windows.old) work.old (tables_of heads.new parents.new rows.new counts.new next.new book_heads.new book_rows.new book_next.new windows.new) work.new result.0.0 result.1.0 }
{
    let free = write_columns(heads, parents, rows, counts, next, m, f);
    let book_free = write_book(book_heads, book_rows, book_next, n, c);
    workspace::clear(windows, 0, 2 * n as usize);
    workspace::clear(work, 0, workspace::work_need(m, n, f, c));
    Heads(free, book_free)
}

// Writes the tables of L: m columns of one record each, and f - m free records.
fn write_columns(
    heads: &mut [u32],
    parents: &mut [u16],
    rows: &mut [u16],
    counts: &mut [u16],
    next: &mut [u32],
    m: u32,
    f: u32,
) -> Rec
    requires { HoldColumns m f heads.old parents.old rows.old counts.old next.old }
    ensures { ColumnsWritten m f heads.old parents.old rows.old counts.old next.old heads.new parents.new rows.new counts.new next.new result.0 }
{
    let a = m as usize;
    let e = f as usize;
    columns::open(
        &mut heads[..a],
        &mut parents[..a],
        &mut rows[..e],
        &mut counts[..e],
        &mut next[..e],
    )
}

// Writes the tables of the book: n ids without a column, and c free records.
fn write_book(
    book_heads: &mut [u32],
    book_rows: &mut [u16],
    book_next: &mut [u32],
    n: u32,
    c: u32,
) -> Rec
    requires { HoldBook n c book_heads.old book_rows.old book_next.old }
    ensures { BookWritten n c book_heads.old book_rows.old book_next.old book_heads.new book_rows.new book_next.new result.0 }
{
    let a = n as usize;
    let e = c as usize;
    book::open(
        &mut book_heads[..a],
        &mut book_rows[..e],
        &mut book_next[..e],
    )
}
