// Where a call is turned down, in the order of the table: the first number whose condition holds, if one does.
ghost use Rattle.std.specs.Prelude.{◌+◌, ◌≤◌, ◌↔◌, IsFalse, IsNone};
ghost use Rattle.reference.specs.Ranges.{Served, InStep};

use crate::columns::wide;
use crate::{Booked, Holds, Limits, Refusal, Sizes, columns, windows};

pub fn is_outside(x: usize, low: usize, high: usize) -> bool
    ensures { IsFalse result ↔ ((low ≤ x) × (x ≤ high)) }
{
    x < low || high < x
}

// Whether some number and `more` together exceed `most`.
pub fn exceeds(most: usize, number: usize, more: usize) -> bool
    ensures { IsFalse result ↔ (number + more ≤ most) }
{
    most < number || most - number < more
}

// 1 to 4: m, n, F or C outside its range.
fn of_sizes(sizes: Sizes) -> Option<usize> {
    if is_outside(sizes.m, 1, 4096) {
        Some(1)
    } else if is_outside(sizes.n, 1, 16384) {
        Some(2)
    } else if is_outside(sizes.f, sizes.m, 1048576) {
        Some(3)
    } else if is_outside(sizes.c, 1, 262144) {
        Some(4)
    } else {
        None
    }
}

// Whether the limits keep the rule: the first is at least 2 and each exceeds the one before.
fn keep_rule(limits: Limits) -> bool {
    2 <= limits.grade2 && limits.grade2 < limits.grade3 && limits.grade3 < limits.grade4
}

// 1 to 4, then a number for limits that break the rule.
fn of_call(sizes: Sizes, number: usize) -> Option<usize> {
    of_sizes(sizes).or((!keep_rule(sizes.limits)).then_some(number))
}

// 1 to 4, then 20 of an opening: limits that break the rule.
pub fn of_opening(sizes: Sizes) -> Option<usize> {
    of_call(sizes, 20)
}

// 1 to 4, then 6 of every later call: such limits are unsound. The columns always are sound.
pub fn of_record(sizes: Sizes) -> Option<usize> {
    of_call(sizes, 6)
}

// The numbers of every later call, then 17 of a question about a row or column: it is outside 1 to m.
pub(crate) fn of_row(sizes: Sizes, j: usize) -> Option<usize>
    ensures { IsNone result → (1 ≤ j) × (j ≤ sizes.m) }
{
    of_record(sizes).or(is_outside(j, 1, sizes.m).then_some(17))
}

// ---- each column, by position

// 8: an id outside 1 to n; 9: earlier in this batch; 10, adding: booked; 11, removing: not booked.
fn of_id(booked: &Booked, earlier: &[u32], id: u32, n: usize, adding: bool) -> Option<usize>
    requires { n ≤ 256 }
{
    let i = wide(id);
    if is_outside(i, 1, n) {
        return Some(8);
    }
    if earlier.contains(&id) {
        return Some(9);
    }
    match (columns::is_marked(booked, i), adding) {
        (true, true) => Some(10),
        (false, false) => Some(11),
        _ => None,
    }
}

// 13: a row outside 1 to m; 14: not above the row before.
fn of_rows(rows: &[u32], m: usize) -> Option<usize> {
    let mut above = 0;
    for row in rows {
        let row = wide(*row);
        if is_outside(row, 1, m) {
            return Some(13);
        }
        if row <= above {
            return Some(14);
        }
        above = row;
    }
    None
}

// ---- whole batches

// A number of the column at a position.
fn at(number: usize, position: usize) -> Refusal {
    Refusal { number, position }
}

// A number of the whole batch.
pub(crate) fn whole(number: usize) -> Refusal {
    at(number, 0)
}

// 8 to 14 and 21 of the columns of an addition whose lists keep step, and 12 for rows left over.
fn of_columns(
    booked: &Booked,
    ids: &[u32],
    counts: &[u32],
    rows: &[u32],
    firsts: &[u32],
    seconds: &[u32],
    m: usize,
    n: usize,
) -> Option<Refusal>
    requires { (n ≤ 256) × InStep ids.now counts.now firsts.now seconds.now }
{
    let mut left = rows;
    for (t, id) in ids.iter().enumerate() {
        if let Some(number) = of_id(booked, &ids[..t], *id, n, true) {
            return Some(at(number, t + 1));
        }
        let count = wide(counts[t]);
        if is_outside(count, 1, left.len().min(256)) {
            return Some(at(12, t + 1));
        }
        if let Some(number) = of_rows(&left[..count], m) {
            return Some(at(number, t + 1));
        }
        if !windows::is_window(firsts[t], seconds[t]) {
            return Some(at(21, t + 1));
        }
        left = &left[count..];
    }
    (!left.is_empty()).then_some(whole(12))
}

// 8 to 15 and 21 of an addition whose lists keep step.
pub fn of_addition(
    holds: &Holds,
    booked: &Booked,
    ids: &[u32],
    counts: &[u32],
    rows: &[u32],
    firsts: &[u32],
    seconds: &[u32],
    sizes: Sizes,
) -> Option<Refusal>
    requires { Served sizes.m sizes.n × InStep ids.now counts.now firsts.now seconds.now }
{
    let stored = columns::book_rows(holds, booked, sizes.m, sizes.n);
    of_columns(booked, ids, counts, rows, firsts, seconds, sizes.m, sizes.n).or(exceeds(
        sizes.c,
        stored,
        rows.len(),
    ).then_some(whole(15)))
}

// 8 to 11 of a removal.
pub fn of_removal(booked: &Booked, ids: &[u32], n: usize) -> Option<Refusal>
    requires { n ≤ 256 }
{
    for (t, id) in ids.iter().enumerate() {
        if let Some(number) = of_id(booked, &ids[..t], *id, n, false) {
            return Some(at(number, t + 1));
        }
    }
    None
}
