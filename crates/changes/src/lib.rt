// The public entries that change which columns a factor has: a batch added, a batch removed; `clock` has the one that sets the clock. Each refuses unusable input by number
// and fixes everything lent: it finds numbers 1 to 6 by the admission of `factor`, and hands on to its unchecked twin. That cuts the tables to their sizes, judges the batch
// and writes it where no number refuses it; it costs what the batch touches. Its premise is that sizes are in range, tables and lists long enough, tables sound, and the
// first W work places zero: a caller that has proved its tables sound uses it.
#![tactic(auto)]

ghost use Rattle.tables.specs.Tables.{tables_of};
ghost use Rattle.calls.specs.Lent.{report_in, report_out, adding_of, removing_of};
ghost use Rattle.factor.specs.Entries.{state_of};
ghost use Rattle.answers.specs.Answers.{CanChange, ChangeTransition, UncheckedChange};

use answers::Changed;
use factor::Factor;
use pool::Rec;

// Adds a batch, with all input checked first.
pub fn add(
    factor: Factor,
    heads: &[u32],
    parents: &mut [u16],
    rows: &mut [u16],
    counts: &mut [u16],
    next: &mut [u32],
    book_heads: &mut [u32],
    book_rows: &mut [u16],
    book_next: &mut [u32],
    windows: &mut [u32],
    work: &mut [u32],
    touched: &mut [u16],
    labels: &mut [u16],
    ids: &[u32],
    row_counts: &[u32],
    row_list: &[u32],
    firsts: &[u32],
    seconds: &[u32],
) -> Changed
    ensures { ChangeTransition factor (tables_of heads.now parents.old rows.old counts.old next.old book_heads.old book_rows.old book_next.old windows.old) (adding_of ids row_counts row_list firsts seconds) (report_in work touched labels) result (report_out work touched labels) (tables_of heads.now parents.new rows.new counts.new next.new book_heads.new book_rows.new book_next.new windows.new) }
{
    let short = early_refusals::short_lists(touched, labels, factor.m);
    if let Err(reason) = factor.admit(
        heads, parents, rows, counts, next, book_heads, book_rows, book_next, windows, work, !short,
    ) {
        return answers::refused(factor, reason.number(), 0);
    }
    add_unchecked(
        factor, heads, parents, rows, counts, next, book_heads, book_rows, book_next, windows,
        work, touched, labels, ids, row_counts, row_list, firsts, seconds,
    )
}

// Removes a batch, with all input checked first.
pub fn remove(
    factor: Factor,
    heads: &[u32],
    parents: &mut [u16],
    rows: &mut [u16],
    counts: &mut [u16],
    next: &mut [u32],
    book_heads: &mut [u32],
    book_rows: &mut [u16],
    book_next: &mut [u32],
    windows: &mut [u32],
    work: &mut [u32],
    touched: &mut [u16],
    labels: &mut [u16],
    ids: &[u32],
) -> Changed
    ensures { ChangeTransition factor (tables_of heads.now parents.old rows.old counts.old next.old book_heads.old book_rows.old book_next.old windows.old) (removing_of ids) (report_in work touched labels) result (report_out work touched labels) (tables_of heads.now parents.new rows.new counts.new next.new book_heads.new book_rows.new book_next.new windows.new) }
{
    let short = early_refusals::short_lists(touched, labels, factor.m);
    if let Err(reason) = factor.admit(
        heads, parents, rows, counts, next, book_heads, book_rows, book_next, windows, work, !short,
    ) {
        return answers::refused(factor, reason.number(), 0);
    }
    remove_unchecked(
        factor, heads, parents, rows, counts, next, book_heads, book_rows, book_next, windows,
        work, touched, labels, ids,
    )
}

// Adds a batch: each id with as many rows of the list as its count says, and a window by its two minutes. Numbers 7 to 16 and 21 refuse it, and then nothing changes.
pub fn add_unchecked(
    factor: Factor,
    heads: &[u32],
    parents: &mut [u16],
    rows: &mut [u16],
    counts: &mut [u16],
    next: &mut [u32],
    book_heads: &mut [u32],
    book_rows: &mut [u16],
    book_next: &mut [u32],
    windows: &mut [u32],
    work: &mut [u32],
    touched: &mut [u16],
    labels: &mut [u16],
    ids: &[u32],
    row_counts: &[u32],
    row_list: &[u32],
    firsts: &[u32],
    seconds: &[u32],
) -> Changed
    requires { CanChange (state_of factor) (tables_of heads.now parents.old rows.old counts.old next.old book_heads.old book_rows.old book_next.old windows.old) work.old touched.old labels.old }
    ensures { UncheckedChange factor (tables_of heads.now parents.old rows.old counts.old next.old book_heads.old book_rows.old book_next.old windows.old) (adding_of ids row_counts row_list firsts seconds) (report_in work touched labels) result (report_out work touched labels) (tables_of heads.now parents.new rows.new counts.new next.new book_heads.new book_rows.new book_next.new windows.new) }
{
    let m = factor.m as usize;
    let n = factor.n as usize;
    let f = factor.f as usize;
    let c = factor.c as usize;
    let plan = match judging::judge_add(
        &heads[..m],
        &parents[..m],
        &rows[..f],
        &counts[..f],
        &next[..f],
        &book_heads[..n],
        &book_next[..c],
        work,
        ids,
        row_counts,
        row_list,
        firsts,
        seconds,
        Rec(factor.free),
        Rec(factor.book_free),
        factor.clock,
    ) {
        Ok(plan) => plan,
        Err(refused) => return answers::refused(factor, refused.refusal.number(), refused.position),
    };
    let after = writing::write_add(
        &heads[..m],
        &mut parents[..m],
        &mut rows[..f],
        &mut counts[..f],
        &mut next[..f],
        &mut book_heads[..n],
        &mut book_rows[..c],
        &mut book_next[..c],
        &mut windows[..2 * n],
        work,
        touched,
        labels,
        ids,
        row_counts,
        row_list,
        firsts,
        seconds,
        plan,
        Rec(factor.free),
        Rec(factor.book_free),
    );
    answers::accepted(
        factor,
        plan.count,
        plan.entries,
        after.free,
        after.book_free,
    )
}

// Removes the columns of a batch of ids. Numbers 7 to 9 and 11 refuse it, and then nothing changes.
pub fn remove_unchecked(
    factor: Factor,
    heads: &[u32],
    parents: &mut [u16],
    rows: &mut [u16],
    counts: &mut [u16],
    next: &mut [u32],
    book_heads: &mut [u32],
    book_rows: &mut [u16],
    book_next: &mut [u32],
    windows: &mut [u32],
    work: &mut [u32],
    touched: &mut [u16],
    labels: &mut [u16],
    ids: &[u32],
) -> Changed
    requires { CanChange (state_of factor) (tables_of heads.now parents.old rows.old counts.old next.old book_heads.old book_rows.old book_next.old windows.old) work.old touched.old labels.old }
    ensures { UncheckedChange factor (tables_of heads.now parents.old rows.old counts.old next.old book_heads.old book_rows.old book_next.old windows.old) (removing_of ids) (report_in work touched labels) result (report_out work touched labels) (tables_of heads.now parents.new rows.new counts.new next.new book_heads.new book_rows.new book_next.new windows.new) }
{
    let m = factor.m as usize;
    let n = factor.n as usize;
    let f = factor.f as usize;
    let c = factor.c as usize;
    let plan = match judging::judge_remove(
        &heads[..m],
        &parents[..m],
        &rows[..f],
        &counts[..f],
        &next[..f],
        &book_heads[..n],
        &book_rows[..c],
        &book_next[..c],
        &windows[..2 * n],
        work,
        ids,
        factor.clock,
    ) {
        Ok(plan) => plan,
        Err(refused) => return answers::refused(factor, refused.refusal.number(), refused.position),
    };
    let after = writing::write_remove(
        &heads[..m],
        &mut parents[..m],
        &mut rows[..f],
        &mut counts[..f],
        &mut next[..f],
        &mut book_heads[..n],
        &mut book_rows[..c],
        &mut book_next[..c],
        &mut windows[..2 * n],
        work,
        touched,
        labels,
        ids,
        plan,
        Rec(factor.free),
        Rec(factor.book_free),
    );
    answers::accepted(
        factor,
        plan.count,
        plan.entries,
        after.free,
        after.book_free,
    )
}
