// The clock goes to another minute: columns stop counting, others begin to. Touched are all columns on the paths of those that stop, in the tree before, and
// of those that begin, in the tree after; all have label 0. Refused by 1 to 4 and 6 by the record, and by 16 where the patterns after it exceed F.
ghost use Rattle.std.specs.Prelude.{◌≤◌, IfOk};
ghost use Rattle.reference.specs.Ranges.{Served};

use crate::refusals::whole;
use crate::{
    Answer, Booked, Holds, Live, Report, Rows, Sizes, Square, Windows, accepted, batch, columns,
    pattern, refusals, total, tree, windows,
};

// ---- touched columns

// Marks the paths of all ids that the first marks have and the second have not; the pattern is that of the first.
fn mark_paths(
    holds: &Holds,
    live: &Live,
    other: &Live,
    pattern: &Square,
    marked: &mut Rows,
    sizes: Sizes,
)
    requires { Served sizes.m sizes.n }
{
    for i in 1..=sizes.n {
        if columns::is_marked(live, i) && !columns::is_marked(other, i) {
            let from = columns::smallest_row(holds, live, sizes.m, i);
            batch::label_path(pattern, marked, sizes.m, from, 1);
        }
    }
}

// ---- entries

// The sum over the touched columns of the larger of a column's sizes.
fn entries(before: &Square, after: &Square, marked: &Rows, m: usize) -> usize
    requires { m ≤ 64 }
{
    total(
        m,
        |j| if marked[j - 1] == 0 {
            0
        } else {
            tree::size(before, m, j).max(tree::size(after, m, j))
        },
    )
}

// ---- the call

// The report of a change from the columns that were live to those that are, with the pattern of these.
fn moved(
    holds: &Holds,
    was: &Live,
    live: &Live,
    after: &Square,
    touched: &mut Rows,
    labels: &mut Rows,
    sizes: Sizes,
) -> Report
    requires { Served sizes.m sizes.n }
    ensures { result.touched ≤ 64 }
{
    let none = [0u16; 64];
    let mut marked = [0u16; 64];
    let mut before = [0u8; 4096];
    pattern::fills(holds, was, &mut before, sizes);
    mark_paths(holds, was, live, &before, &mut marked, sizes);
    mark_paths(holds, live, was, after, &mut marked, sizes);
    let count = batch::report(touched, labels, &marked, &none, sizes.m);
    accepted(sizes, count, entries(&before, after, &marked, sizes.m))
}

// Sets the clock. Refused, it stays.
pub fn set(
    holds: &Holds,
    booked: &Booked,
    windows: &Windows,
    touched: &mut Rows,
    labels: &mut Rows,
    clock: &mut u32,
    minute: u32,
    sizes: Sizes,
) -> Answer
    requires { Served sizes.m sizes.n }
    ensures { IfOk result (λ report. report.touched ≤ 64) }
{
    if let Some(number) = refusals::of_record(sizes) {
        return Err(whole(number));
    }
    let mut was = [0u8; 256];
    let mut live = [0u8; 256];
    let mut after = [0u8; 4096];
    windows::mark_live(booked, windows, &mut was, *clock);
    windows::mark_live(booked, windows, &mut live, minute);
    pattern::fills(holds, &live, &mut after, sizes);
    if sizes.f < tree::sum_of_sizes(&after, sizes.m) {
        return Err(whole(16));
    }
    *clock = minute;
    Ok(moved(holds, &was, &live, &after, touched, labels, sizes))
}
