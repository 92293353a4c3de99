// An accepted batch written to sound tables, from the plan in the work table: the report, the stored columns, then the batch's columns into the book or out of it.
#![tactic(auto)]

ghost use Rattle.tables.specs.Tables.{tables_of};
ghost use Rattle.calls.specs.Lent.{report_in, report_out, adding_of, removing_of};
ghost use Rattle.calls.specs.Calls.Change.{adding, removing};
ghost use Rattle.writing.specs.Writing.{SomePlan, WritesPlan};

use pool::Rec;
use tables::ColumnsMut;
use updown::Plan;

// The free heads after a batch is written.
#[derive(Clone, Copy)]
pub struct FreeHeads {
    pub free: Rec,
    pub book_free: Rec,
}

// Writes an accepted addition: the report, the plan, then the batch's columns into the book and their windows beside it.
pub fn write_add(
    heads: &[u32],
    parents: &mut [u16],
    rows: &mut [u16],
    counts: &mut [u16],
    next: &mut [u32],
    book_heads: &mut [u32],
    book_rows: &mut [u16],
    book_next: &mut [u32],
    windows: &mut [u32],
    work: &mut [u32],
    touched: &mut [u16],
    labels: &mut [u16],
    ids: &[u32],
    row_counts: &[u32],
    row_list: &[u32],
    firsts: &[u32],
    seconds: &[u32],
    plan: Plan,
    free: Rec,
    book_free: Rec,
) -> FreeHeads
    requires { SomePlan (tables_of heads.now parents.old rows.old counts.old next.old book_heads.old book_rows.old book_next.old windows.old) free.0 book_free.0 (adding ids.now row_counts.now row_list.now firsts.now seconds.now) work.old touched.old labels.old plan }
    ensures { WritesPlan (tables_of heads.now parents.old rows.old counts.old next.old book_heads.old book_rows.old book_next.old windows.old) free.0 book_free.0 (adding_of ids row_counts row_list firsts seconds) (report_in work touched labels) plan (tables_of heads.now parents.new rows.new counts.new next.new book_heads.new book_rows.new book_next.new windows.new) result (report_out work touched labels) }
{
    let first = plan.first;
    commit::report(work, touched, labels, heads.len(), first);
    let mut columns = ColumnsMut {
        heads,
        parents,
        rows,
        counts,
        next,
    };
    let z = commit::write_plan(&mut columns, work, first, plan.used, free);
    let y = entering::enter_columns(
        book_heads, book_rows, book_next, ids, row_counts, row_list, book_free,
    );
    windows::minutes::enter(windows, book_heads.len(), ids, firsts, seconds);
    FreeHeads {
        free: z,
        book_free: y,
    }
}

// Writes an accepted removal: the report, the plan, then the batch's columns out of the book and their minutes to 0.
pub fn write_remove(
    heads: &[u32],
    parents: &mut [u16],
    rows: &mut [u16],
    counts: &mut [u16],
    next: &mut [u32],
    book_heads: &mut [u32],
    book_rows: &mut [u16],
    book_next: &mut [u32],
    windows: &mut [u32],
    work: &mut [u32],
    touched: &mut [u16],
    labels: &mut [u16],
    ids: &[u32],
    plan: Plan,
    free: Rec,
    book_free: Rec,
) -> FreeHeads
    requires { SomePlan (tables_of heads.now parents.old rows.old counts.old next.old book_heads.old book_rows.old book_next.old windows.old) free.0 book_free.0 (removing ids.now) work.old touched.old labels.old plan }
    ensures { WritesPlan (tables_of heads.now parents.old rows.old counts.old next.old book_heads.old book_rows.old book_next.old windows.old) free.0 book_free.0 (removing_of ids) (report_in work touched labels) plan (tables_of heads.now parents.new rows.new counts.new next.new book_heads.new book_rows.new book_next.new windows.new) result (report_out work touched labels) }
{
    let first = plan.first;
    commit::report(work, touched, labels, heads.len(), first);
    let mut columns = ColumnsMut {
        heads,
        parents,
        rows,
        counts,
        next,
    };
    let z = commit::write_plan(&mut columns, work, first, plan.used, free);
    let y = entering::leave_columns(book_heads, book_rows, book_next, ids, book_free);
    windows::minutes::leave(windows, book_heads.len(), ids);
    FreeHeads {
        free: z,
        book_free: y,
    }
}
