// What the tables hold, on both: the record's limits and clock, what check answers, the minutes of every id, every column with its parent, and how many records
// are free.
ghost use Rattle.std.specs.Prelude.{◌≤◌, ◌<◌};

use crate::pair::{Pair, mark_live, served};
use crate::{free, same};
use reference::{Live, Square, Windows};

// First minutes of the ids, then second minutes.
type Minutes = [u32; 512];

// ---- windows

// The minutes of the id at place k, of n ids.
fn same_window(ours: &Minutes, theirs: &Windows, n: usize, k: usize) -> bool
    requires { (n ≤ 256) × (k < n) }
{
    let a = same::places("first minute", k, ours[k], theirs[2 * k]);
    let b = same::places("second minute", k, ours[n + k], theirs[2 * k + 1]);
    a & b
}

// The minutes of all n ids.
fn same_windows(ours: &Minutes, theirs: &Windows, n: usize) -> bool
    requires { n ≤ 256 }
{
    for k in 0..n {
        if !same_window(ours, theirs, n, k) {
            return false;
        }
    }
    true
}

// ---- columns

// Column j, its parent and its entries.
fn same_column(p: Pair, live: &Live, pattern: &Square, j: u32) -> bool {
    let holds = p.holds;
    let sizes = served(p.sizes);
    let mut list = [9u32; 160];
    let mut other = [9u32; 160];
    let reply = p.host.column(&mut list, j, 0);
    let theirs = reference::questions::column(
        &holds, live, pattern, &mut other, sizes, 0, j as usize,
    );
    let a = same::replies("size of a column", reply, theirs);
    let b = same::lists("entries of a column", &list, &other);
    let parent = reference::questions::parent(pattern, sizes, j as usize);
    let c = same::replies("parent of a column", p.host.parent(j), parent);
    a & b & c
}

// Columns 1 to m.
fn same_columns(p: Pair, live: &Live, pattern: &Square) -> bool {
    let m = p.host.row_count();
    for j in 1..=m {
        if !same_column(p, live, pattern, j) {
            return false;
        }
    }
    true
}

// ---- all of it

// Whether the record has the reference's limits and clock, and the tables its minutes.
fn same_record(p: Pair) -> bool {
    let ours = p.host;
    let minutes = ours.windows;
    let windows = p.windows;
    let record = ours.factor;
    let sizes = served(p.sizes);
    let a = same::limits(record, sizes.limits);
    let b = same::numbers("clock", record.clock, p.clock as usize);
    let c = same_windows(&minutes, &windows, sizes.n);
    a & b & c
}

// Whether the record and the minutes are the reference's, the check gives what the record says and no more, the tables hold the reference's columns, and all
// other records are free.
pub fn same_factor(p: Pair) -> bool {
    let holds = p.holds;
    let sizes = served(p.sizes);
    let mut live = [0u8; 256];
    let mut pattern = [0u8; 4096];
    mark_live(p, &mut live);
    reference::pattern::fills(&holds, &live, &mut pattern, sizes);
    let sound = p.host.check();
    let a = same::refusals("check", sound.number, reference::refusals::of_record(sizes));
    let b = same_record(p);
    let c = same_columns(p, &live, &pattern);
    let d = free::same_counts(p, &pattern);
    a & b & c & d
}
