// A removal: its columns leave and their minutes are forgotten; those of them that are live touch what lies on their paths. Refused by 1 to 4 and 6 by the
// record, then by 7, 8, 9 and 11.
ghost use Rattle.std.specs.Prelude.{◌≤◌, length, IfOk};
ghost use Rattle.reference.specs.Ranges.{Served};

use crate::refusals::whole;
use crate::{
    Answer, Booked, Holds, Report, Rows, Sizes, Windows, batch, leave, pattern, refusals, reported,
    windows,
};

// The columns of a removal leave, with their report. Those that are not live touch nothing.
fn removed(
    holds: &Holds,
    booked: &mut Booked,
    windows: &mut Windows,
    touched: &mut Rows,
    labels: &mut Rows,
    ids: &[u32],
    clock: u32,
    sizes: Sizes,
) -> Report
    requires { Served sizes.m sizes.n × (length ids.now ≤ 64) }
    ensures { result.touched ≤ 64 }
{
    let mut live = [0u8; 256];
    let mut pattern = [0u8; 4096];
    let mut label_of = [0u16; 64];
    windows::mark_live(booked, windows, &mut live, clock);
    pattern::fills(holds, &live, &mut pattern, sizes);
    batch::label(holds, &live, &pattern, &mut label_of, ids, sizes);
    leave(booked, windows, ids, sizes.n);
    reported(&pattern, touched, labels, &label_of, sizes)
}

// Removes a batch at a minute. Touched columns and labels are those of the tree before it.
pub fn remove(
    holds: &Holds,
    booked: &mut Booked,
    windows: &mut Windows,
    touched: &mut Rows,
    labels: &mut Rows,
    ids: &[u32],
    clock: u32,
    sizes: Sizes,
) -> Answer
    requires { Served sizes.m sizes.n }
    ensures { IfOk result (λ report. report.touched ≤ 64) }
{
    if let Some(number) = refusals::of_record(sizes) {
        return Err(whole(number));
    }
    if refusals::is_outside(ids.len(), 1, 64) {
        return Err(whole(7));
    }
    if let Some(refusal) = refusals::of_removal(booked, ids, sizes.n) {
        return Err(refusal);
    }
    Ok(removed(holds, booked, windows, touched, labels, ids, clock, sizes))
}
