// Clock changes one after another through the unchecked entry, as a proved caller makes them, for the benchmark alone: the tables are read through once, then
// each change costs the windows, a copy of the records where somebody enters, and the paths. No part of the product's interface.
ghost use Rattle.std.specs.Prelude.{◌≤◌, length};
ghost use Rattle.tables.specs.Tables.{tables_of};
ghost use Rattle.factor.specs.Entries.{state_of};
ghost use Rattle.answers.specs.Answers.{CanChange};
ghost use Rattle.bench_driver.specs.Runs.{Continues};

use crate::Ran;
use factor::Factor;

// The minutes that a run names at most.
const MOST_MINUTES: usize = 1048576;

// The clock set to each minute of the list, until one is refused.
fn clock_each(
    factor: Factor,
    heads: &[u32],
    parents: &mut [u16],
    rows: &mut [u16],
    counts: &mut [u16],
    next: &mut [u32],
    book_heads: &[u32],
    book_rows: &[u16],
    book_next: &[u32],
    windows: &[u32],
    work: &mut [u32],
    touched: &mut [u16],
    labels: &mut [u16],
    minutes: &[u32],
) -> Ran
    requires usable { CanChange (state_of factor) (tables_of heads.now parents.old rows.old counts.old next.old book_heads.now book_rows.now book_next.now windows.now) work.old touched.old labels.old }
    requires few { length minutes.now ≤ 1048576 }
    ensures { CanChange (state_of result.factor) (tables_of heads.now parents.new rows.new counts.new next.new book_heads.now book_rows.now book_next.now windows.now) work.new touched.new labels.new }
{
    let mut after = factor;
    let mut done: usize = 0;
    while done < minutes.len() {
        let minute = minutes[done];
        let x = clock::set_clock_unchecked(
            after, heads, parents, rows, counts, next, book_heads, book_rows, book_next, windows,
            work, touched, labels, minute,
        );
        after = x.factor;
        if x.number != 0 {
            return Ran {
                number: x.number,
                done: done as u32,
                factor: after,
            };
        }
        done += 1;
    }
    Ran {
        number: 0,
        done: done as u32,
        factor: after,
    }
}

// Reads the tables through once, then sets the clock to each minute of the list. Numbers 1 to 6 refuse the run, 7 one that names too many minutes.
#[unsafe(no_mangle)]
pub extern "C" fn bench_clock(
    factor: Factor,
    heads: &[u32],
    parents: &mut [u16],
    rows: &mut [u16],
    counts: &mut [u16],
    next: &mut [u32],
    book_heads: &[u32],
    book_rows: &[u16],
    book_next: &[u32],
    windows: &[u32],
    work: &mut [u32],
    touched: &mut [u16],
    labels: &mut [u16],
    minutes: &[u32],
) -> Ran
    ensures { Continues result (tables_of heads.now parents.new rows.new counts.new next.new book_heads.now book_rows.now book_next.now windows.now) work.new touched.new labels.new }
{
    let found = factor.check(
        heads, parents, rows, counts, next, book_heads, book_rows, book_next, windows, work,
    );
    let number = found.number;
    if number != 0 {
        return Ran {
            number,
            done: 0,
            factor,
        };
    }
    if early_refusals::short_lists(touched, labels, factor.m) {
        return Ran {
            number: 5,
            done: 0,
            factor,
        };
    }
    if MOST_MINUTES < minutes.len() {
        return Ran {
            number: 7,
            done: 0,
            factor,
        };
    }
    clock_each(
        factor, heads, parents, rows, counts, next, book_heads, book_rows, book_next, windows,
        work, touched, labels, minutes,
    )
}
