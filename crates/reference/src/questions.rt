// The questions, of a pattern that `fills` wrote for the live columns: 1 to 4 and 6 by the record, 17 for a row or column outside 1 to m, 18 where the
// list ends before the answer does.
ghost use Rattle.std.specs.Prelude.{◌≤◌, IfOk};
ghost use Rattle.reference.specs.Ranges.{IsRow, Served};

use crate::refusals::exceeds;
use crate::{Entry, Holds, Live, Reply, Sizes, Square, pattern, refusals, tree};

// ---- the next row

// The entry of the first row of i, i + 1, .. m that has a multiplicity in column j, if there is one.
fn first_from(
    holds: &Holds,
    live: &Live,
    pattern: &Square,
    sizes: Sizes,
    i: usize,
    j: usize,
) -> Option<Entry>
    requires { Served sizes.m sizes.n × IsRow i }
{
    for row in i..=sizes.m {
        let multiplicity = tree::multiplicity(holds, live, pattern, sizes, row, j);
        if multiplicity != 0 {
            return Some(Entry { row, multiplicity });
        }
    }
    None
}

// The entry of the first row at or above i in column j; none if the column ends before.
pub fn next_row(
    holds: &Holds,
    live: &Live,
    pattern: &Square,
    sizes: Sizes,
    i: usize,
    j: usize,
) -> Result<Option<Entry>, usize>
    requires { Served sizes.m sizes.n }
{
    if let Some(number) = refusals::of_row(sizes, i).or(refusals::of_row(sizes, j)) {
        return Err(number);
    }
    Ok(first_from(holds, live, pattern, sizes, i, j))
}

// ---- the parent

// The parent of row j, 0 for a root.
pub fn parent(pattern: &Square, sizes: Sizes, j: usize) -> Reply
    requires { Served sizes.m sizes.n }
{
    if let Some(number) = refusals::of_row(sizes, j) {
        return Err(number);
    }
    Ok(tree::parent(pattern, sizes.m, j))
}

// ---- answers that are lists, written from place `at` onward

// The path of row j. The list's end ends it at the latest.
fn write_path(pattern: &Square, list: &mut [u32], m: usize, j: usize)
    requires { (m ≤ 64) × IsRow j }
{
    for (place, row) in list.iter_mut().zip(tree::path(pattern, m, j)) {
        *place = row as u32;
    }
}

// The path of row j, a row to a place; its length is the value.
pub fn path(pattern: &Square, list: &mut [u32], sizes: Sizes, at: usize, j: usize) -> Reply
    requires { Served sizes.m sizes.n }
    ensures { IfOk result (λ value. value ≤ 64) }
{
    if let Some(number) = refusals::of_row(sizes, j) {
        return Err(number);
    }
    let value = tree::path_length(pattern, sizes.m, j);
    if exceeds(list.len(), at, value) {
        return Err(18);
    }
    write_path(pattern, &mut list[at..], sizes.m, j);
    Ok(value)
}

// The entries of column j, ascending, row then multiplicity. The list's end ends them at the latest.
fn write_column(
    holds: &Holds,
    live: &Live,
    pattern: &Square,
    list: &mut [u32],
    sizes: Sizes,
    j: usize,
)
    requires { Served sizes.m sizes.n × IsRow j }
{
    let mut k = 0;
    for i in j..=sizes.m {
        if 2 <= list.len() - k && pattern::is_in(pattern, i, j) {
            list[k] = i as u32;
            list[k + 1] = tree::multiplicity(holds, live, pattern, sizes, i, j) as u32;
            k += 2;
        }
    }
}

// The entries of column j, row then multiplicity; their number is the value.
pub fn column(
    holds: &Holds,
    live: &Live,
    pattern: &Square,
    list: &mut [u32],
    sizes: Sizes,
    at: usize,
    j: usize,
) -> Reply
    requires { Served sizes.m sizes.n }
    ensures { IfOk result (λ value. value ≤ 64) }
{
    if let Some(number) = refusals::of_row(sizes, j) {
        return Err(number);
    }
    let value = tree::size(pattern, sizes.m, j);
    if exceeds(list.len(), at, 2 * value) {
        return Err(18);
    }
    write_column(holds, live, pattern, &mut list[at..], sizes, j);
    Ok(value)
}
