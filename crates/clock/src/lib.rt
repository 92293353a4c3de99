// The public entry that sets the clock, by which columns with windows begin and cease to count. It refuses unusable input by number and fixes everything lent: it finds
// numbers 1 to 6 by the admission of `factor`, and hands on to its unchecked twin. That cuts the tables to their sizes; columns that fall outside their windows leave the
// stored columns, then those that begin to count enter, as one change (`exchange`); where it does not fit, 16, and every table is as before. Then the report, and the work
// table cleared. Costs n for the windows, F for a saved copy where somebody enters, and the touched paths. Its premise is that of the unchecked changes in `changes`.
#![tactic(auto)]

ghost use Rattle.tables.specs.Tables.{tables_of};
ghost use Rattle.calls.specs.Lent.{report_in, report_out};
ghost use Rattle.calls.specs.Calls.Change.{setting};
ghost use Rattle.factor.specs.Entries.{state_of};
ghost use Rattle.answers.specs.Answers.{CanChange, ChangeTransition, UncheckedChange};
ghost use Rattle.clock.specs.Setting.{CanClear, Cleared};

use answers::Changed;
use early_refusals::Refusal;
use factor::Factor;
use pool::Rec;
use workspace::PLAN;

// Sets the clock to a minute, with all input checked first.
pub fn set_clock(
    factor: Factor,
    heads: &[u32],
    parents: &mut [u16],
    rows: &mut [u16],
    counts: &mut [u16],
    next: &mut [u32],
    book_heads: &[u32],
    book_rows: &[u16],
    book_next: &[u32],
    windows: &[u32],
    work: &mut [u32],
    touched: &mut [u16],
    labels: &mut [u16],
    minute: u32,
) -> Changed
    ensures { ChangeTransition factor (tables_of heads.now parents.old rows.old counts.old next.old book_heads.now book_rows.now book_next.now windows.now) (setting minute) (report_in work touched labels) result (report_out work touched labels) (tables_of heads.now parents.new rows.new counts.new next.new book_heads.now book_rows.now book_next.now windows.now) }
{
    let short = early_refusals::short_lists(touched, labels, factor.m);
    if let Err(reason) = factor.admit(
        heads, parents, rows, counts, next, book_heads, book_rows, book_next, windows, work, !short,
    ) {
        return answers::refused(factor, reason.number(), 0);
    }
    set_clock_unchecked(
        factor, heads, parents, rows, counts, next, book_heads, book_rows, book_next, windows,
        work, touched, labels, minute,
    )
}

// Clears what an exchange of m columns and f records left in the work table: the places of the gathered columns and, where records were saved, theirs too.
fn clear(work: &mut [u32], m: usize, f: usize, saved: bool)
    requires { CanClear work.old m f }
    ensures { Cleared work.old work.new m f saved }
{
    if saved {
        workspace::clear(work, PLAN * m + f, 3 * f);
    } else {
        workspace::clear(work, PLAN * m + f + 2 * f, m);
    }
}

// Sets the clock to a minute: columns that fall outside their windows leave, those that begin to count enter. Number 16 refuses it, and then nothing changes.
pub fn set_clock_unchecked(
    factor: Factor,
    heads: &[u32],
    parents: &mut [u16],
    rows: &mut [u16],
    counts: &mut [u16],
    next: &mut [u32],
    book_heads: &[u32],
    book_rows: &[u16],
    book_next: &[u32],
    windows: &[u32],
    work: &mut [u32],
    touched: &mut [u16],
    labels: &mut [u16],
    minute: u32,
) -> Changed
    requires { CanChange (state_of factor) (tables_of heads.now parents.old rows.old counts.old next.old book_heads.now book_rows.now book_next.now windows.now) work.old touched.old labels.old }
    ensures { UncheckedChange factor (tables_of heads.now parents.old rows.old counts.old next.old book_heads.now book_rows.now book_next.now windows.now) (setting minute) (report_in work touched labels) result (report_out work touched labels) (tables_of heads.now parents.new rows.new counts.new next.new book_heads.now book_rows.now book_next.now windows.now) }
{
    let m = factor.m as usize;
    let n = factor.n as usize;
    let f = factor.f as usize;
    let c = factor.c as usize;
    let x = exchange::exchange(
        &heads[..m],
        &mut parents[..m],
        &mut rows[..f],
        &mut counts[..f],
        &mut next[..f],
        &book_heads[..n],
        &book_rows[..c],
        &book_next[..c],
        &windows[..2 * n],
        work,
        factor.clock,
        minute,
        Rec(factor.free),
    );
    if !x.fits {
        clear(work, m, f, x.saved);
        return answers::refused(factor, Refusal::FactorFull.number(), 0);
    }
    let report = exchange::reporting::report(&heads[..m], &next[..f], work, touched, labels);
    clear(work, m, f, x.saved);
    answers::clocked(factor, minute, report.count, report.entries, x.free)
}
