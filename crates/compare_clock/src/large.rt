// More columns than a batch can have leave and enter at once: 80 count up to minute 10, 90 others from then on, 20 all the time.
ghost use Rattle.std.specs.Prelude.{◌≤◌};

use crate::lent::add_first;
use crate::minutes::Minutes;
use pairs::draw::count_from;
use pairs::pair::Pair;
use pairs::{pair, rows};

// The ids of a batch.
pub type List = [u32; 64];

// The two rows of each column of a batch.
pub type RowList = [u32; 128];

// ---- batches

// The row after one, by a step: they go round in rows 1 to 40.
fn row_after(row: u32, step: u32) -> u32
    requires { (row ≤ 40) × (step ≤ 40) }
    ensures { result ≤ 40 }
{
    let after = row + step;
    if 40 < after { after - 40 } else { after }
}

// Two rows for each column, the second by `apart` above the first.
pub fn write_rows(list: &mut RowList, step: u32, apart: u32)
    requires { (step ≤ 40) × (apart ≤ 24) }
{
    let mut row = 1;
    for k in 0..64 {
        list[2 * k] = row;
        list[2 * k + 1] = row + apart;
        row = row_after(row, step);
    }
}

// Adds the first r columns, with windows: lends the lists as slices.
pub fn lists_added(
    p: Pair,
    ids: &List,
    list: &RowList,
    firsts: &Minutes,
    seconds: &Minutes,
    r: usize,
) -> Pair
    requires { r ≤ 64 }
{
    let counts = [2u32; 64];
    add_first(p, ids, &counts, list, firsts, seconds, r, 2 * r, r, r)
}

// Adds r columns from an id on, with one window.
fn add(p: Pair, from: u32, r: usize, step: u32, apart: u32, first: u32, second: u32) -> Pair
    requires { (from ≤ 256) × (r ≤ 64) × (step ≤ 40) × (apart ≤ 24) }
{
    let firsts = [first; 66];
    let seconds = [second; 66];
    let mut ids = [0u32; 64];
    let mut list = [0u32; 128];
    count_from(&mut ids, from);
    write_rows(&mut list, step, apart);
    lists_added(p, &ids, &list, &firsts, &seconds, r)
}

// ---- the histories

// All columns, with f factor records.
fn added(p: Pair, f: u32) -> Pair {
    let mut q = pair::open(p, 64, 200, f, 512);
    q = add(q, 1, 20, 3, 2, 0, 0);
    q = add(q, 21, 40, 7, 1, 1, 10);
    q = add(q, 61, 40, 11, 3, 1, 10);
    q = add(q, 101, 64, 7, 1, 10, 20);
    add(q, 165, 26, 9, 5, 10, 30)
}

// Forward and back, with records for all.
fn roomy(p: Pair) -> Pair {
    let mut q = added(p, 2080);
    q = pair::set_clock(q, 5);
    q = pair::set_clock(q, 15);
    q = rows::asked(q, 21);
    q = pair::set_clock(q, 5);
    q = pair::set_clock(q, 25);
    q = pair::set_clock(q, 10);
    q = pair::set_clock(q, 35);
    pair::set_clock(q, 9)
}

// With too few records for those from minute 10 on.
fn tight(p: Pair, f: u32) -> Pair {
    let mut q = added(p, f);
    q = pair::set_clock(q, 5);
    q = pair::set_clock(q, 15);
    q = pair::set_clock(q, 25);
    q = pair::set_clock(q, 15);
    pair::set_clock(q, 0)
}

pub fn all(p: Pair) -> Pair {
    let mut q = roomy(p);
    q = tight(q, 200);
    tight(q, 120)
}
