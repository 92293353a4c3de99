// A batch: its columns enter or leave, and its touched columns, labels, entries and grade.
ghost use Rattle.std.specs.Prelude.{◌≡◌, ◌≤◌, length};
ghost use Rattle.reference.specs.Ranges.{Served};

use crate::columns::wide;
use crate::refusals::is_outside;
use crate::{Booked, Holds, Limits, Live, Rows, Sizes, Square, columns, total, tree};

// ---- columns in and out

// Every id of the batch that the tables have enters, with as many of the rows not yet used as its count says.
pub fn enter(
    holds: &mut Holds,
    booked: &mut Booked,
    ids: &[u32],
    counts: &[u32],
    rows: &[u32],
    n: usize,
)
    requires { (n ≤ 256) × (length counts.now ≡ length ids.now) }
{
    let mut at = 0;
    for (id, count) in ids.iter().zip(counts) {
        let i = wide(*id);
        if !is_outside(i, 1, n) {
            at = columns::enter(holds, booked, rows, at, wide(*count), i);
        }
    }
}

// Every id of the batch that the tables have leaves.
pub fn leave(booked: &mut Booked, ids: &[u32], n: usize)
    requires { n ≤ 256 }
{
    for id in ids {
        let i = wide(*id);
        if !is_outside(i, 1, n) {
            columns::leave(booked, i);
        }
    }
}

// ---- touched columns and labels

// The smallest row of id i; 0 if the tables have no such live column.
fn start(holds: &Holds, live: &Live, sizes: Sizes, i: usize) -> usize
    requires { Served sizes.m sizes.n }
    ensures { result ≤ 64 }
{
    if is_outside(i, 1, sizes.n) {
        return 0;
    }
    columns::smallest_row(holds, live, sizes.m, i)
}

// Labels the path of a row; 0 has none. It has at most m rows.
pub fn label_path(pattern: &Square, label_of: &mut Rows, m: usize, from: usize, label: u16)
    requires { (m ≤ 64) × (from ≤ 64) }
{
    if from == 0 {
        return;
    }
    for row in tree::path(pattern, m, from) {
        label_of[row - 1] = label;
    }
}

// A label for each row, 0 if untouched: the largest position whose path passes through it, as later positions write over earlier ones.
// The live columns are those that the batch is among, and the pattern is theirs. A column of the batch that is not live has no path and keeps its position.
pub fn label(
    holds: &Holds,
    live: &Live,
    pattern: &Square,
    label_of: &mut Rows,
    ids: &[u32],
    sizes: Sizes,
)
    requires { Served sizes.m sizes.n × (length ids.now ≤ 64) }
{
    for (t, id) in ids.iter().enumerate() {
        let from = start(holds, live, sizes, wide(*id));
        label_path(pattern, label_of, sizes.m, from, t as u16 + 1);
    }
}

// Writes the rows that are marked ascending, with their labels, and gives their number.
pub fn report(
    touched: &mut Rows,
    labels: &mut Rows,
    marked: &Rows,
    label_of: &Rows,
    m: usize,
) -> usize
    requires { m ≤ 64 }
    ensures { result ≤ 64 }
{
    let mut count = 0;
    for (k, mark) in marked[..m].iter().enumerate() {
        if *mark != 0 {
            touched[count] = k as u16 + 1;
            labels[count] = label_of[k];
            count += 1;
        }
    }
    count
}

// ---- entries and grade

// The sum of the sizes of the touched columns in a pattern.
pub fn entries(pattern: &Square, label_of: &Rows, m: usize) -> usize
    requires { m ≤ 64 }
{
    total(
        m,
        |j| if label_of[j - 1] == 0 {
            0
        } else {
            tree::size(pattern, m, j)
        },
    )
}

// The largest grade whose first entries are at most these. Those of grade 1 are 1, so it is 0 for none.
pub fn grade(limits: Limits, entries: usize) -> usize {
    let firsts = [1, limits.grade2, limits.grade3, limits.grade4];
    firsts
        .iter()
        .rposition(|first| *first <= entries)
        .map_or(0, |k| k + 1)
}
