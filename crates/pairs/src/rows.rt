// What is asked about rows at one point of a history. The columns that meet a row: of every row, and of 0 and m + 1, from places where the list is long enough
// and where it is not. The smallest row on all paths: of each row alone and twice, of drawn rows, of all rows, of none, of 65, with one outside 1 to m. The next
// row: from every row in every column, and from 0 and m + 1, in 0 and m + 1.
ghost use Rattle.std.specs.Prelude.{◌≤◌};

use crate::draw::{Ids, chance, draw};
use crate::pair::{Pair, mark_live, served};
use crate::{draw, meeting, next_row};
use reference::Square;

// ---- one row

// The columns that meet row i: in a long list from its start and from a place within, in a list that ends with the answer, then from one place too far, from past
// its end, and from the last place that there can be.
fn columns_of(p: Pair, pattern: &Square, seed: &mut u64, i: u32) -> Pair {
    let at = 1 + draw(seed, 7) as usize;
    let end = at + meeting::width(p, pattern, i);
    let mut q = meeting::meets(p, pattern, i, 0, 160);
    q = meeting::meets(q, pattern, i, at, 160);
    q = meeting::meets(q, pattern, i, at, end);
    q = meeting::meets(q, pattern, i, at + 1, end);
    q = meeting::meets(q, pattern, i, end + 1, end);
    meeting::meets(q, pattern, i, 18446744073709551615, end)
}

// Row i alone, and twice.
fn alone(p: Pair, pattern: &Square, i: u32) -> Pair {
    let one = [i];
    let two = [i, i];
    let q = meeting::common(p, pattern, &one);
    meeting::common(q, pattern, &two)
}

// Rows 0 to m + 1.
fn each(p: Pair, pattern: &Square, seed: &mut u64, m: u32) -> Pair
    requires { m ≤ 64 }
{
    let mut q = p;
    for i in 0..m + 2 {
        q = columns_of(q, pattern, seed, i);
        q = alone(q, pattern, i);
    }
    q
}

// ---- some rows

// The first r rows of a list.
fn listed(p: Pair, pattern: &Square, list: &Ids, r: usize) -> Pair
    requires { r ≤ 65 }
{
    meeting::common(p, pattern, &list[..r])
}

// As many drawn rows; now and then the same again with one of them outside 1 to m.
fn drawn(p: Pair, pattern: &Square, seed: &mut u64, m: u32, r: u32) -> Pair
    requires { (m ≤ 64) × (r ≤ 65) }
{
    let mut list = [0u32; 65];
    draw::name_rows(seed, &mut list, m);
    let q = listed(p, pattern, &list, r as usize);
    if !chance(seed, 3) {
        return q;
    }
    draw::name_outside(seed, &mut list, m, r);
    listed(q, pattern, &list, r as usize)
}

// Lists of two rows, of three, of any number up to 64, and of 64.
fn some(p: Pair, pattern: &Square, seed: &mut u64, m: u32) -> Pair
    requires { m ≤ 64 }
{
    let mut q = p;
    for _ in 0..8 {
        q = drawn(q, pattern, seed, m, 2);
        q = drawn(q, pattern, seed, m, 3);
    }
    let r = 1 + draw(seed, 63);
    q = drawn(q, pattern, seed, m, r);
    drawn(q, pattern, seed, m, 64)
}

// All rows, ascending; no row; 65 rows of 1 to m; 65 rows outside.
fn bounds(p: Pair, pattern: &Square, seed: &mut u64, m: u32) -> Pair
    requires { m ≤ 64 }
{
    let outside = [m + 1; 65];
    let mut list = [0u32; 65];
    draw::count_from(&mut list, 1);
    let mut q = listed(p, pattern, &list, m as usize);
    q = listed(q, pattern, &list, 0);
    draw::name_rows(seed, &mut list, m);
    q = listed(q, pattern, &list, 65);
    listed(q, pattern, &outside, 65)
}

// ---- all of it

// Everything, with the seed's numbers; the seed stays.
pub fn asked(p: Pair, seed: u64) -> Pair {
    let holds = p.holds;
    let mut s = seed;
    let mut live = [0u8; 256];
    let mut pattern = [0u8; 4096];
    mark_live(p, &mut live);
    reference::pattern::fills(&holds, &live, &mut pattern, served(p.sizes));
    let m = p.host.row_count();
    let mut q = each(p, &pattern, &mut s, m);
    q = some(q, &pattern, &mut s, m);
    q = bounds(q, &pattern, &mut s, m);
    next_row::every(q, &pattern, m)
}
