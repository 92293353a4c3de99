// Questions about rows, of a pattern that `fills` wrote for the live columns: the columns whose pattern holds a row, and the smallest row on the paths of all
// of some rows. Every column is looked at, and every row from 1 on, each path anew. 1 to 4 and 6 by the record, 7 for no row or more than 64, 17 for a row
// outside 1 to m, 18 where the list ends before the answer does.
ghost use Rattle.std.specs.Prelude.{◌≤◌, IfOk};
ghost use Rattle.reference.specs.Ranges.{IsRow, Served};

use crate::columns::wide;
use crate::refusals::{exceeds, is_outside};
use crate::{Reply, Sizes, Square, pattern, refusals, tree};

// ---- the columns that hold a row

// How many columns hold row i.
fn holders(pattern: &Square, m: usize, i: usize) -> usize
    requires { (m ≤ 64) × IsRow i }
    ensures { result ≤ 64 }
{
    (1..=m).filter(|&j| pattern::is_in(pattern, i, j)).count()
}

// The columns that hold row i, ascending. The list's end ends them at the latest.
fn write_holders(pattern: &Square, list: &mut [u32], m: usize, i: usize)
    requires { (m ≤ 64) × IsRow i }
{
    let mut k = 0;
    for j in 1..=m {
        if k < list.len() && pattern::is_in(pattern, i, j) {
            list[k] = j as u32;
            k += 1;
        }
    }
}

// The columns that hold row i, ascending, a column to a place from place `at` onward; how many places they take is the value.
pub fn meets(pattern: &Square, list: &mut [u32], sizes: Sizes, at: usize, i: usize) -> Reply
    requires { Served sizes.m sizes.n }
    ensures { IfOk result (λ value. value ≤ 64) }
{
    if let Some(number) = refusals::of_row(sizes, i) {
        return Err(number);
    }
    let value = holders(pattern, sizes.m, i);
    if exceeds(list.len(), at, value) {
        return Err(18);
    }
    write_holders(pattern, &mut list[at..], sizes.m, i);
    Ok(value)
}

// ---- the smallest row on all paths

// Whether row k lies on the path of row j. A row outside 1 to m has no path.
fn is_on_path(pattern: &Square, m: usize, j: usize, k: usize) -> bool
    requires { m ≤ 64 }
{
    !is_outside(j, 1, m) && tree::path(pattern, m, j).any(|row| row == k)
}

// Whether row k lies on the path of every row that is named.
fn is_on_all(pattern: &Square, row_list: &[u32], m: usize, k: usize) -> bool
    requires { m ≤ 64 }
{
    row_list
        .iter()
        .all(|row| is_on_path(pattern, m, wide(*row), k))
}

// The smallest row of 1 to m that lies on all these paths, if there is one.
fn smallest_on_all(pattern: &Square, row_list: &[u32], m: usize) -> Option<usize>
    requires { m ≤ 64 }
{
    (1..=m).find(|&k| is_on_all(pattern, row_list, m, k))
}

// Whether some row that is named is outside 1 to m.
fn names_outside(row_list: &[u32], m: usize) -> bool {
    row_list.iter().any(|row| is_outside(wide(*row), 1, m))
}

// The smallest row on the paths of all rows that are named; 0 if there is none.
pub fn common(pattern: &Square, row_list: &[u32], sizes: Sizes) -> Reply
    requires { Served sizes.m sizes.n }
{
    if let Some(number) = refusals::of_record(sizes) {
        return Err(number);
    }
    if is_outside(row_list.len(), 1, 64) {
        return Err(7);
    }
    if names_outside(row_list, sizes.m) {
        return Err(17);
    }
    Ok(smallest_on_all(pattern, row_list, sizes.m).unwrap_or(0))
}
