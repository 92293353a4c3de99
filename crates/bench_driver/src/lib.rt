// Batches one after another through the unchecked entries, as a proved caller runs them, in setting.rt clock changes and in asking.rt questions, for the
// benchmark alone: the tables are read through once, then each batch costs only what it touches. The batches have no windows. No part of the product's
// interface.
#![tactic(auto)]

ghost use Rattle.std.specs.Prelude.{◌≡◌};
ghost use Rattle.tables.specs.Tables.{tables_of};
ghost use Rattle.factor.specs.Entries.{state_of};
ghost use Rattle.answers.specs.Answers.{CanChange};
ghost use Rattle.bench_driver.specs.Runs.{Continues};

mod asking;
mod plan;
mod setting;

use answers::Changed;
use factor::Factor;

// How a run of batches or clock changes ended: the number that refused one or 0, how many are done, and the record after them.
#[repr(C)]
#[derive(Clone, Copy)]
pub struct Ran {
    pub number: u32,
    pub done: u32,
    pub factor: Factor,
}

// The answer to a batch that is too large, or whose parts the lists do not have.
fn refused(factor: Factor) -> Changed
    ensures { result.factor ≡ factor }
{
    Changed {
        number: 7,
        position: 0,
        touched: 0,
        entries: 0,
        grade: 0,
        factor,
    }
}

// Adds a batch without windows, or number 7 where it has more ids than any batch may: then nothing changes.
fn add_plain(
    factor: Factor,
    heads: &[u32],
    parents: &mut [u16],
    rows: &mut [u16],
    counts: &mut [u16],
    next: &mut [u32],
    book_heads: &mut [u32],
    book_rows: &mut [u16],
    book_next: &mut [u32],
    windows: &mut [u32],
    work: &mut [u32],
    touched: &mut [u16],
    labels: &mut [u16],
    ids: &[u32],
    row_counts: &[u32],
    row_list: &[u32],
) -> Changed
    requires { CanChange (state_of factor) (tables_of heads.now parents.old rows.old counts.old next.old book_heads.old book_rows.old book_next.old windows.old) work.old touched.old labels.old }
    ensures { CanChange (state_of result.factor) (tables_of heads.now parents.new rows.new counts.new next.new book_heads.new book_rows.new book_next.new windows.new) work.new touched.new labels.new }
{
    let count = ids.len();
    if 64 < count {
        return refused(factor);
    }
    let firsts = [0u32; 64];
    let seconds = [0u32; 64];
    changes::add_unchecked(
        factor,
        heads,
        parents,
        rows,
        counts,
        next,
        book_heads,
        book_rows,
        book_next,
        windows,
        work,
        touched,
        labels,
        ids,
        row_counts,
        row_list,
        &firsts[..count],
        &seconds[..count],
    )
}

// Adds or removes one batch.
fn change(
    factor: Factor,
    heads: &[u32],
    parents: &mut [u16],
    rows: &mut [u16],
    counts: &mut [u16],
    next: &mut [u32],
    book_heads: &mut [u32],
    book_rows: &mut [u16],
    book_next: &mut [u32],
    windows: &mut [u32],
    work: &mut [u32],
    touched: &mut [u16],
    labels: &mut [u16],
    ids: &[u32],
    row_counts: &[u32],
    row_list: &[u32],
    adds: bool,
) -> Changed
    requires { CanChange (state_of factor) (tables_of heads.now parents.old rows.old counts.old next.old book_heads.old book_rows.old book_next.old windows.old) work.old touched.old labels.old }
    ensures { CanChange (state_of result.factor) (tables_of heads.now parents.new rows.new counts.new next.new book_heads.new book_rows.new book_next.new windows.new) work.new touched.new labels.new }
{
    if adds {
        return add_plain(
            factor, heads, parents, rows, counts, next, book_heads, book_rows, book_next, windows,
            work, touched, labels, ids, row_counts, row_list,
        );
    }
    changes::remove_unchecked(
        factor, heads, parents, rows, counts, next, book_heads, book_rows, book_next, windows,
        work, touched, labels, ids,
    )
}

// The batch that six numbers of the plan say, or number 7 where the lists do not have its parts: then nothing changes.
fn step(
    factor: Factor,
    heads: &[u32],
    parents: &mut [u16],
    rows: &mut [u16],
    counts: &mut [u16],
    next: &mut [u32],
    book_heads: &mut [u32],
    book_rows: &mut [u16],
    book_next: &mut [u32],
    windows: &mut [u32],
    work: &mut [u32],
    touched: &mut [u16],
    labels: &mut [u16],
    planned: &[u32; 6],
    ids: &[u32],
    row_counts: &[u32],
    row_list: &[u32],
) -> Changed
    requires { CanChange (state_of factor) (tables_of heads.now parents.old rows.old counts.old next.old book_heads.old book_rows.old book_next.old windows.old) work.old touched.old labels.old }
    ensures { CanChange (state_of result.factor) (tables_of heads.now parents.new rows.new counts.new next.new book_heads.new book_rows.new book_next.new windows.new) work.new touched.new labels.new }
{
    let Some(batch) = plan::planned(planned, ids, row_counts, row_list) else {
        return refused(factor);
    };
    change(
        factor,
        heads,
        parents,
        rows,
        counts,
        next,
        book_heads,
        book_rows,
        book_next,
        windows,
        work,
        touched,
        labels,
        batch.ids,
        batch.row_counts,
        batch.row_list,
        batch.adds,
    )
}

// The batches of the plan in order, until one is refused.
fn run(
    factor: Factor,
    heads: &[u32],
    parents: &mut [u16],
    rows: &mut [u16],
    counts: &mut [u16],
    next: &mut [u32],
    book_heads: &mut [u32],
    book_rows: &mut [u16],
    book_next: &mut [u32],
    windows: &mut [u32],
    work: &mut [u32],
    touched: &mut [u16],
    labels: &mut [u16],
    plan: &[u32],
    ids: &[u32],
    row_counts: &[u32],
    row_list: &[u32],
) -> Ran
    requires { CanChange (state_of factor) (tables_of heads.now parents.old rows.old counts.old next.old book_heads.old book_rows.old book_next.old windows.old) work.old touched.old labels.old }
    ensures { CanChange (state_of result.factor) (tables_of heads.now parents.new rows.new counts.new next.new book_heads.new book_rows.new book_next.new windows.new) work.new touched.new labels.new }
{
    let batches = plan::batches(plan);
    let mut after = factor;
    for (done, batch) in batches.iter().enumerate() {
        let x = step(
            after, heads, parents, rows, counts, next, book_heads, book_rows, book_next, windows,
            work, touched, labels, batch, ids, row_counts, row_list,
        );
        after = x.factor;
        if x.number != 0 {
            return Ran {
                number: x.number,
                done: done as u32,
                factor: after,
            };
        }
    }
    Ran {
        number: 0,
        done: batches.len() as u32,
        factor: after,
    }
}

// Reads the tables through once, then runs the batches of the plan: its numbers, six a batch, are described in plan.rt. Numbers 1 to 6 refuse the run.
#[unsafe(no_mangle)]
pub extern "C" fn bench_run_batches(
    factor: Factor,
    heads: &[u32],
    parents: &mut [u16],
    rows: &mut [u16],
    counts: &mut [u16],
    next: &mut [u32],
    book_heads: &mut [u32],
    book_rows: &mut [u16],
    book_next: &mut [u32],
    windows: &mut [u32],
    work: &mut [u32],
    touched: &mut [u16],
    labels: &mut [u16],
    plan: &[u32],
    ids: &[u32],
    row_counts: &[u32],
    row_list: &[u32],
) -> Ran
    ensures { Continues result (tables_of heads.now parents.new rows.new counts.new next.new book_heads.new book_rows.new book_next.new windows.new) work.new touched.new labels.new }
{
    let found = factor.check(
        heads, parents, rows, counts, next, book_heads, book_rows, book_next, windows, work,
    );
    let number = found.number;
    if number != 0 {
        return Ran {
            number,
            done: 0,
            factor,
        };
    }
    if early_refusals::short_lists(touched, labels, factor.m) {
        return Ran {
            number: 5,
            done: 0,
            factor,
        };
    }
    run(
        factor, heads, parents, rows, counts, next, book_heads, book_rows, book_next, windows,
        work, touched, labels, plan, ids, row_counts, row_list,
    )
}
