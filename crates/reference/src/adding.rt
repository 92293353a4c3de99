// An addition: its columns enter with their minutes, and those of them that are live touch what lies on their paths. Refused by 1 to 4 and 6 by the record,
// then by 7 to 16 and 21.
ghost use Rattle.std.specs.Prelude.{◌≤◌, length, IfOk};
ghost use Rattle.reference.specs.Ranges.{Served, InStep};

use crate::refusals::whole;
use crate::{
    Answer, Booked, Holds, Live, Report, Rows, Sizes, Square, Windows, batch, leave, pattern,
    refusals, reported, tree, windows,
};

// The columns of an addition enter, the live ones are marked, and their pattern is written.
fn enter(
    holds: &mut Holds,
    booked: &mut Booked,
    windows: &mut Windows,
    live: &mut Live,
    pattern: &mut Square,
    ids: &[u32],
    counts: &[u32],
    rows: &[u32],
    firsts: &[u32],
    seconds: &[u32],
    clock: u32,
    sizes: Sizes,
)
    requires { Served sizes.m sizes.n × InStep ids.now counts.now firsts.now seconds.now }
{
    batch::enter(holds, booked, ids, counts, rows, sizes.n);
    windows::enter(windows, ids, firsts, seconds, sizes.n);
    windows::mark_live(booked, windows, live, clock);
    pattern::fills(holds, live, pattern, sizes);
}

// The same, but where the sum of all sizes exceeds F the columns leave again, and it gives false.
fn enters(
    holds: &mut Holds,
    booked: &mut Booked,
    windows: &mut Windows,
    live: &mut Live,
    pattern: &mut Square,
    ids: &[u32],
    counts: &[u32],
    rows: &[u32],
    firsts: &[u32],
    seconds: &[u32],
    clock: u32,
    sizes: Sizes,
) -> bool
    requires { Served sizes.m sizes.n × InStep ids.now counts.now firsts.now seconds.now }
{
    enter(
        holds, booked, windows, live, pattern, ids, counts, rows, firsts, seconds, clock, sizes,
    );
    let fits = tree::sum_of_sizes(pattern, sizes.m) <= sizes.f;
    if !fits {
        leave(booked, windows, ids, sizes.n);
    }
    fits
}

// The report of an addition that entered.
fn added(
    holds: &Holds,
    live: &Live,
    pattern: &Square,
    touched: &mut Rows,
    labels: &mut Rows,
    ids: &[u32],
    sizes: Sizes,
) -> Report
    requires { Served sizes.m sizes.n × (length ids.now ≤ 64) }
    ensures { result.touched ≤ 64 }
{
    let mut label_of = [0u16; 64];
    batch::label(holds, live, pattern, &mut label_of, ids, sizes);
    reported(pattern, touched, labels, &label_of, sizes)
}

// Adds a batch whose lists keep step.
fn add_lists(
    holds: &mut Holds,
    booked: &mut Booked,
    windows: &mut Windows,
    touched: &mut Rows,
    labels: &mut Rows,
    ids: &[u32],
    counts: &[u32],
    rows: &[u32],
    firsts: &[u32],
    seconds: &[u32],
    clock: u32,
    sizes: Sizes,
) -> Answer
    requires { Served sizes.m sizes.n × (length ids.now ≤ 64) × InStep ids.now counts.now firsts.now seconds.now }
    ensures { IfOk result (λ report. report.touched ≤ 64) }
{
    if let Some(refusal) = refusals::of_addition(
        holds, booked, ids, counts, rows, firsts, seconds, sizes,
    ) {
        return Err(refusal);
    }
    let mut live = [0u8; 256];
    let mut pattern = [0u8; 4096];
    if !enters(
        holds,
        booked,
        windows,
        &mut live,
        &mut pattern,
        ids,
        counts,
        rows,
        firsts,
        seconds,
        clock,
        sizes,
    ) {
        return Err(whole(16));
    }
    Ok(added(holds, &live, &pattern, touched, labels, ids, sizes))
}

// Adds a batch at a minute. Touched columns and labels are those of the tree after it.
pub fn add(
    holds: &mut Holds,
    booked: &mut Booked,
    windows: &mut Windows,
    touched: &mut Rows,
    labels: &mut Rows,
    ids: &[u32],
    counts: &[u32],
    rows: &[u32],
    firsts: &[u32],
    seconds: &[u32],
    clock: u32,
    sizes: Sizes,
) -> Answer
    requires { Served sizes.m sizes.n }
    ensures { IfOk result (λ report. report.touched ≤ 64) }
{
    if let Some(number) = refusals::of_record(sizes) {
        return Err(whole(number));
    }
    let count = ids.len();
    let keep_step = counts.len() == count && firsts.len() == count && seconds.len() == count;
    if refusals::is_outside(count, 1, 64) || !keep_step {
        return Err(whole(7));
    }
    add_lists(
        holds, booked, windows, touched, labels, ids, counts, rows, firsts, seconds, clock, sizes,
    )
}
