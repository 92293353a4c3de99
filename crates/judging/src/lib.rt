// A batch judged on sound tables before anything is written: its refusal is searched for, and where there is none its plan is made in the work table. Costs only the
// touched paths.
#![tactic(auto)]

ghost use Rattle.tables.specs.Lent.{tables_in, tables_now};
ghost use Rattle.calls.specs.Lent.{adding_of, removing_of};
ghost use Rattle.judging.specs.Judging.{SomeRows, AddJudged, SomeFree, RemoveJudged};

use book::BookView;
use early_refusals::Refusal;
use pool::Rec;
use refusals::Refused;
use tables::ColumnsView;
use updown::{Plan, filling};

// Plans an addition in the work table, or refuses it: by 7 to 15 and 21, then by 16, for which the plan is made. A column outside its window starts nowhere.
pub fn judge_add(
    heads: &[u32],
    parents: &[u16],
    rows: &[u16],
    counts: &[u16],
    next: &[u32],
    book_heads: &[u32],
    book_next: &[u32],
    work: &mut [u32],
    ids: &[u32],
    row_counts: &[u32],
    row_list: &[u32],
    firsts: &[u32],
    seconds: &[u32],
    free: Rec,
    book_free: Rec,
    clock: u32,
) -> Result<Plan, Refused>
    requires { SomeRows heads.now parents.now rows.now counts.now next.now book_heads.now book_next.now clock free.0 book_free.0 work.old }
    ensures { AddJudged heads.now parents.now rows.now counts.now next.now book_heads.now book_next.now clock free.0 book_free.0 (adding_of ids row_counts row_list firsts seconds) work.old work.new result }
{
    refusals::find_add(
        book_heads,
        book_next,
        ids,
        row_counts,
        row_list,
        firsts,
        seconds,
        book_free,
        heads.len() as u32,
    )?;
    let k = row_counts.len();
    let mut room = [0u32; 64];
    let starts = &mut room[..k];
    filling::listed_starts(row_counts, row_list, starts);
    windows::minutes::hide_listed(firsts, seconds, clock, starts);
    let columns = ColumnsView {
        heads,
        parents,
        rows,
        counts,
        next,
    };
    let plan = updown::plan_add(columns, work, row_counts, row_list, starts, free);
    if !plan.fits {
        return Err(Refused::whole(Refusal::FactorFull));
    }
    Ok(plan)
}

// Plans a removal in the work table, or refuses it.
pub fn judge_remove(
    heads: &[u32],
    parents: &[u16],
    rows: &[u16],
    counts: &[u16],
    next: &[u32],
    book_heads: &[u32],
    book_rows: &[u16],
    book_next: &[u32],
    windows: &[u32],
    work: &mut [u32],
    ids: &[u32],
    clock: u32,
) -> Result<Plan, Refused>
    requires { SomeFree (tables_now heads parents rows counts next book_heads book_rows book_next windows) clock work.old }
    ensures { RemoveJudged (tables_in heads parents rows counts next book_heads book_rows book_next windows) clock (removing_of ids) work.old work.new result }
{
    refusals::find_remove(book_heads, ids)?;
    let k = ids.len();
    let mut room = [0u32; 64];
    let starts = &mut room[..k];
    filling::booked_starts(book_heads, book_rows, ids, starts);
    windows::minutes::hide_booked(windows, book_heads.len(), ids, clock, starts);
    let columns = ColumnsView {
        heads,
        parents,
        rows,
        counts,
        next,
    };
    let book = BookView {
        heads: book_heads,
        rows: book_rows,
        next: book_next,
    };
    let plan = updown::plan_remove(columns, book, work, ids, starts);
    Ok(plan)
}
