// The numbers that a call is refused by before a table is read, in their order: sizes and their default (1 to 4), the limits of grades (20, in limits.rt), tables
// and lists that are too short (5). Two tests of a range come first, which later numbers ask too. Tables are shared, never written.
#![tactic(auto)]

ghost use Rattle.std.specs.Prelude.{◌≡◌, not};
ghost use Rattle.tables.specs.Tables.{sizes_of};
ghost use Rattle.tables.specs.Lent.{tables_viewed};
ghost use Rattle.lists.specs.Lists.{is_in};
ghost use Rattle.calls.specs.Refusals.{is_accepted, sizes_refusal, short_refusal, lists_long};
ghost use Rattle.early_refusals.specs.Refusal.{number_in};
ghost use Rattle.early_refusals.specs.Early.{largest, records_for, factor_long, book_long};

pub mod limits;
mod refusal;

use book::BookView;
pub use refusal::Refusal;
use tables::{ColumnsView, TablesView};

// The most columns in a batch, and the most rows that a question names.
pub const MOST_COLUMNS: usize = 64;

// Whether x is below low or above high.
pub fn outside(low: u32, high: u32, x: u32) -> bool
    ensures { result ≡ not (is_in low high x) }
{
    x < low || high < x
}

// Whether r columns of a batch, or r rows that are named, are too few or too many.
pub fn shape_outside(r: usize) -> bool
    ensures { result ≡ not (is_in 1 64 r) }
{
    r < 1 || MOST_COLUMNS < r
}

// Refuses sizes outside their ranges, from the largest m, n, F and C: 1 to 4.
pub fn sizes(
    m: u32,
    n: u32,
    f: u32,
    c: u32,
    most_rows: u32,
    most_ids: u32,
    most_records: u32,
    most_booked: u32,
) -> Result<(), Refusal>
    ensures { number_in result ≡ (sizes_refusal (largest most_rows most_ids most_records most_booked) (sizes_of m n f c)).number }
{
    if outside(1, most_rows, m) {
        return Err(Refusal::Rows);
    }
    if outside(1, most_ids, n) {
        return Err(Refusal::Ids);
    }
    if outside(m, most_records, f) {
        return Err(Refusal::Records);
    }
    if outside(1, most_booked, c) {
        return Err(Refusal::Booked);
    }
    Ok(())
}

// The records for each row where an opening asks for 0.
const RECORDS_PER_ROW: u32 = 32;

// The F of an opening: the default where 0 is asked for, else what is asked. Where the default does not fit 32 bits F stays 0, and m is far beyond any that is
// allowed.
pub fn default_records(m: u32, f: u32) -> u32
    ensures { result ≡ records_for m f }
{
    if 4294967295 / RECORDS_PER_ROW < m {
        return f;
    }
    if f == 0 {
        return RECORDS_PER_ROW * m;
    }
    f
}

// Whether a table of L is too short.
fn short_factor(columns: ColumnsView, m: u32, f: u32) -> bool
    ensures { result ≡ not (factor_long m f columns.entry.heads.now columns.entry.parents.now columns.entry.rows.now columns.entry.counts.now columns.entry.next.now) }
{
    let m = m as usize;
    let f = f as usize;
    columns.heads.len() < m
        || columns.parents.len() < m
        || columns.rows.len() < f
        || columns.counts.len() < f
        || columns.next.len() < f
}

// Whether a table of the book, or that of the windows, is too short.
fn short_book(book: BookView, windows: &[u32], n: u32, c: u32) -> bool
    ensures { result ≡ not (book_long n c book.entry.heads.now book.entry.rows.now book.entry.next.now windows.now) }
{
    let n = n as usize;
    let c = c as usize;
    book.heads.len() < n || book.rows.len() < c || book.next.len() < c || windows.len() < 2 * n
}

// Whether some table, or the work table, is too short.
pub fn short(tables: TablesView, work: &[u32], m: u32, n: u32, f: u32, c: u32) -> bool
    ensures { result ≡ not (is_accepted (short_refusal (sizes_of m n f c) (tables_viewed tables.entry) work.now)) }
{
    short_factor(tables.columns, m, f)
        || short_book(tables.book, tables.windows, n, c)
        || work.len() < workspace::work_need(m, n, f, c)
}

// Whether the list for touched columns, or the one for labels, is too short.
pub fn short_lists(touched: &[u16], labels: &[u16], m: u32) -> bool
    ensures { result ≡ not (lists_long m touched.now labels.now) }
{
    touched.len() < m as usize || labels.len() < m as usize
}
