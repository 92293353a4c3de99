// Batches and the clock for hosts.
ghost use Rattle.tables.specs.Tables.{tables_of};
ghost use Rattle.calls.specs.Calls.Change.{setting};
ghost use Rattle.calls.specs.Lent.{report_in, report_out, adding_of, removing_of};
ghost use Rattle.answers.specs.Answers.{ChangeTransition};

use answers::Changed;
use factor::Factor;

// Adds a batch: each id with as many rows of the list as its count says, and a window by its two minutes; minutes 0 and 0 mean none.
#[unsafe(no_mangle)]
pub extern "C" fn nigvalds_add_0_7(
    factor: Factor,
    heads: &[u32],
    parents: &mut [u16],
    rows: &mut [u16],
    counts: &mut [u16],
    next: &mut [u32],
    book_heads: &mut [u32],
    book_rows: &mut [u16],
    book_next: &mut [u32],
    windows: &mut [u32],
    work: &mut [u32],
    touched: &mut [u16],
    labels: &mut [u16],
    ids: &[u32],
    row_counts: &[u32],
    row_list: &[u32],
    firsts: &[u32],
    seconds: &[u32],
) -> Changed
    ensures { ChangeTransition factor (tables_of heads.now parents.old rows.old counts.old next.old book_heads.old book_rows.old book_next.old windows.old) (adding_of ids row_counts row_list firsts seconds) (report_in work touched labels) result (report_out work touched labels) (tables_of heads.now parents.new rows.new counts.new next.new book_heads.new book_rows.new book_next.new windows.new) }
{
    changes::add(
        factor, heads, parents, rows, counts, next, book_heads, book_rows, book_next, windows,
        work, touched, labels, ids, row_counts, row_list, firsts, seconds,
    )
}

// Removes the columns of a batch of ids.
#[unsafe(no_mangle)]
pub extern "C" fn nigvalds_remove_0_7(
    factor: Factor,
    heads: &[u32],
    parents: &mut [u16],
    rows: &mut [u16],
    counts: &mut [u16],
    next: &mut [u32],
    book_heads: &mut [u32],
    book_rows: &mut [u16],
    book_next: &mut [u32],
    windows: &mut [u32],
    work: &mut [u32],
    touched: &mut [u16],
    labels: &mut [u16],
    ids: &[u32],
) -> Changed
    ensures { ChangeTransition factor (tables_of heads.now parents.old rows.old counts.old next.old book_heads.old book_rows.old book_next.old windows.old) (removing_of ids) (report_in work touched labels) result (report_out work touched labels) (tables_of heads.now parents.new rows.new counts.new next.new book_heads.new book_rows.new book_next.new windows.new) }
{
    changes::remove(
        factor, heads, parents, rows, counts, next, book_heads, book_rows, book_next, windows,
        work, touched, labels, ids,
    )
}

// Sets the clock to a minute, forward or back: columns that fall outside their windows leave, those that begin to count enter.
#[unsafe(no_mangle)]
pub extern "C" fn nigvalds_set_clock_0_7(
    factor: Factor,
    heads: &[u32],
    parents: &mut [u16],
    rows: &mut [u16],
    counts: &mut [u16],
    next: &mut [u32],
    book_heads: &[u32],
    book_rows: &[u16],
    book_next: &[u32],
    windows: &[u32],
    work: &mut [u32],
    touched: &mut [u16],
    labels: &mut [u16],
    minute: u32,
) -> Changed
    ensures { ChangeTransition factor (tables_of heads.now parents.old rows.old counts.old next.old book_heads.now book_rows.now book_next.now windows.now) (setting minute) (report_in work touched labels) result (report_out work touched labels) (tables_of heads.now parents.new rows.new counts.new next.new book_heads.now book_rows.now book_next.now windows.now) }
{
    clock::set_clock(
        factor, heads, parents, rows, counts, next, book_heads, book_rows, book_next, windows,
        work, touched, labels, minute,
    )
}
