// Decides number 6 as far as tables go: for any contents of all of them, whether they are sound at a clock, in time proportional to m + n + F + C. (The record's
// limits are tested in `factor`.) Book and windows come first. Columns of L are read by rising number: what the definition gives for a column is counted from the
// booked columns inside their windows and from its children, which were read before. Records are not marked: chains that end are apart if their last records are, and the free chain if its last record has row 0.
#![tactic(auto)]

ghost use Rattle.std.specs.Prelude.{◌≡◌, ◌+◌, ◌*◌, ◌-◌, ◌≤◌, length, get_or};
ghost use Rattle.lists.specs.Lists.{Decides};
ghost use Rattle.tables.specs.Lent.{columns_viewed};
ghost use Rattle.workspace.specs.Layout.{pieces_at};
ghost use Rattle.workspace.specs.Regions.{region, OnlyIn};
ghost use Rattle.book.specs.Views.{book_viewed};
ghost use Rattle.soundness.specs.Checking.{CanCheckEntry, EntryChecked, CanCheck, Checked, CanReadFree, FreeRead};
ghost use Rattle.soundness.specs.State.{SomeState, CanReadColumn, ColumnsRead, SomePrepared, FactorRead, WithinWork};
ghost use Rattle.soundness.specs.ReadThrough.{
  CanReadBooked,
  booked_sound,
  WithinBooked,
  CanReadThrough,
  made_ready,
  are_sound,
};

use book::{BookView, Row};
use pool::Rec;
use tables::{ColumnsView, TablesView};

// Whether a row and its multiplicity are the next entry of a column with the counters: then takes the counter away and writes the row at place p.
fn check_entry(work: &mut [u32], m: usize, p: usize, before: Row, row: Row, count: u32) -> bool
    requires { CanCheckEntry work.old m p }
    ensures { EntryChecked work.old work.new m p before.0 row.0 count result }
{
    let x = row.0;
    if x <= before.0 || m < x as usize || count == 0 || work[(x - 1) as usize] != count {
        return false;
    }
    work[(x - 1) as usize] = 0;
    work[p] = x;
    true
}

// Walks the chain of a column, after met records: its entries must be the counters, of which size are not 0, so it must have so many records. Takes the
// counters away and stashes the rows. Gives the number of records met, and the last one.
fn check_chain(
    columns: ColumnsView,
    work: &mut [u32],
    m: usize,
    met: usize,
    size: usize,
    head: Rec,
) -> Option<(usize, Rec)>
    requires { CanCheck columns.rows.now columns.counts.now columns.next.now work.old m met size }
    ensures { Checked columns.entry.rows.now columns.entry.counts.now columns.entry.next.now work.old work.new m met head.0 result }
{
    let ColumnsView {
        rows,
        counts,
        next,
        ..
    } = columns;
    if next.len() - met < size {
        return None;
    }
    let stash = 8 * m + next.len() + met;
    let mut r = head.0;
    let mut last: u32 = 0;
    let mut before: u32 = 0;
    for k in 0..size {
        if r == 0 || next.len() < r as usize {
            return None;
        }
        let i = (r - 1) as usize;
        let row = rows[i] as u32;
        let count = counts[i] as u32;
        if !check_entry(work, m, stash + k, Row(before), Row(row), count) {
            return None;
        }
        before = row;
        last = r;
        r = next[i];
    }
    if r != 0 {
        return None;
    }
    Some((met + size, Rec(last)))
}

// The second of the rows at places a to e - 1, or 0 where there is none.
fn second(work: &[u32], a: usize, e: usize) -> Row
    requires { (a ≤ e) × (e ≤ length work.now) }
    ensures { result.0 ≡ get_or (region work.now a (e - a)) 1 0 }
{
    Row(work[a..e].get(1).copied().unwrap_or(0))
}

// Reads column j of L, after met records: its chain must hold what the definition gives, and its parent be the second row or 0. Links it to its parent,
// and names its last record.
fn read_column(
    columns: ColumnsView,
    book: BookView,
    work: &mut [u32],
    free: Rec,
    book_free: Rec,
    j: Row,
    met: usize,
) -> Option<usize>
    requires { CanReadColumn (columns_viewed columns free.0) (book_viewed book book_free.0) work.old j.0 met }
    ensures { ColumnsRead (columns_viewed columns.entry free.0) (book_viewed book.entry book_free.0) work.old j.0 met work.new (j.0 + 1) result }
{
    let m = columns.heads.len();
    let f = columns.next.len();
    let column = j.0;
    let i = (column - 1) as usize;
    let size = counting::tally_all(book, work, m, f, j) as usize;
    let (n, last) = check_chain(columns, work, m, met, size, Rec(columns.heads[i]))?;
    let stash = 8 * m + f;
    let up = second(work, stash + met, stash + n);
    if columns.parents[i] as u32 != up.0 {
        return None;
    }
    counting::link(work, m, 2 * m, up, column);
    work[4 * m + column as usize] = n as u32;
    ends::name(work, 6 * m, 8 * m, column, last);
    Some(n)
}

// Reads the columns of L by rising number. Gives the number of records met.
fn read_columns(
    columns: ColumnsView,
    book: BookView,
    work: &mut [u32],
    free: Rec,
    book_free: Rec,
) -> Option<usize>
    requires { SomeState (columns_viewed columns free.0) (book_viewed book book_free.0) work.old 1 0 }
    ensures { ColumnsRead (columns_viewed columns.entry free.0) (book_viewed book.entry book_free.0) work.old 1 0 work.new (length columns.entry.heads.now + 1) result }
{
    let mut n: usize = 0;
    for i in 0..columns.heads.len() {
        n = read_column(columns, book, work, free, book_free, Row((i + 1) as u32), n)?;
    }
    Some(n)
}

// Whether k records have row 0, all of them multiplicity 0, and the free chain has so many. Writes the pieces of the free chain.
fn read_free(columns: ColumnsView, work: &mut [u32], m: usize, free: Rec, k: usize) -> bool
    requires { CanReadFree columns.rows.now columns.counts.now columns.next.now work.old m }
    ensures answer { Decides (FreeRead columns.entry.rows.now columns.entry.counts.now columns.entry.next.now free.0 k) result }
    ensures work { OnlyIn (pieces_at m (length columns.entry.next.now)) (2 * length columns.entry.next.now) work.old work.new }
{
    let a = 8 * m + 2 * columns.next.len();
    let e = a + 2 * columns.next.len();
    free_chain::zeros(columns.rows) == k
        && free_chain::zero_pairs(columns.rows, columns.counts) == k
        && free_chain::has(columns.rows, columns.next, &mut work[a..e], free, k)
}

// Decides whether the stored columns are those of the book: the columns by rising number, that they are apart, and that all other records are free.
fn read_factor(
    columns: ColumnsView,
    book: BookView,
    work: &mut [u32],
    free: Rec,
    book_free: Rec,
) -> bool
    requires { SomePrepared (columns_viewed columns free.0) (book_viewed book book_free.0) work.old }
    ensures { FactorRead (columns_viewed columns.entry free.0) (book_viewed book.entry book_free.0) work.old work.new result }
{
    let m = columns.heads.len();
    let Some(n) = read_columns(columns, book, work, free, book_free) else {
        return false;
    };
    let left = columns.next.len() - n;
    ends::are_apart(work, 6 * m, 8 * m, m) && read_free(columns, work, m, free, left)
}

// Whether book and windows are sound. The book's places of the work table hold anything after.
fn read_booked(
    book: BookView,
    windows: &[u32],
    work: &mut [u32],
    book_free: Rec,
    m: usize,
    f: usize,
) -> bool
    requires { CanReadBooked (book_viewed book book_free.0) windows.now work.old m f }
    ensures answer { result ≡ booked_sound m (book_viewed book.entry book_free.0) windows.now }
    ensures work { WithinBooked m f (book_viewed book.entry book_free.0) work.old work.new }
{
    let a = 8 * m + 4 * f + 1024;
    let e = a + book.next.len() + book.heads.len();
    book.read_through(&mut work[a..e], book_free, m as u32)
        && windows::minutes::are_sound(book.heads, windows)
}

// Makes a work table of any content ready to be read through with, for m columns: what the pass counts and lists in is zero.
pub fn make_ready(work: &mut [u32], m: usize)
    requires { 4 * m + 1 ≤ length work.old }
    ensures { work.new ≡ made_ready work.old m }
{
    workspace::clear(work, 0, 4 * m + 1);
}

// Whether what all tables hold is sound, for any contents. The work table was made ready, and holds anything in its first W places after.
pub fn read_through(
    tables: TablesView,
    work: &mut [u32],
    free: Rec,
    book_free: Rec,
    clock: u32,
) -> bool
    requires { CanReadThrough (columns_viewed tables.columns free.0) (book_viewed tables.book book_free.0) tables.windows.now work.old }
    ensures answer { result ≡ are_sound (columns_viewed tables.entry.columns free.0) (book_viewed tables.entry.book book_free.0) tables.entry.windows.now clock }
    ensures work { WithinWork (columns_viewed tables.entry.columns free.0) (book_viewed tables.entry.book book_free.0) work.old work.new }
{
    let columns = tables.columns;
    let book = tables.book;
    let m = columns.heads.len();
    let f = columns.next.len();
    if !read_booked(book, tables.windows, work, book_free, m, f) {
        return false;
    }
    let b = 8 * m + 4 * f + 1024 + book.next.len();
    counting::link_columns(
        book.heads,
        book.rows,
        tables.windows,
        work,
        clock,
        3 * m,
        m,
        b,
    );
    read_factor(columns, book, work, free, book_free)
}
