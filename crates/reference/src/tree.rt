// The tree and the multiplicities of a pattern, by the words of the definition.
ghost use Rattle.std.specs.Prelude.{◌≡◌, ◌≤◌, IfSome};
ghost use Rattle.std.specs.Iterator.{at_most};
ghost use Rattle.std.specs.Option.{ForSome};
ghost use Rattle.reference.specs.Ranges.{IsRow, IsId, Served};

use crate::columns::one;
use crate::{Holds, Live, Sizes, Square, columns, pattern, total};

// The smallest row in L_j above j, if there is one.
fn row_above(pattern: &Square, m: usize, j: usize) -> Option<usize>
    requires { (m ≤ 64) × IsRow j }
    ensures { IfSome result (λ i. (1 ≤ i) × (i ≤ m)) }
{
    (j + 1..m + 1).find(|&i| pattern::is_in(pattern, i, j))
}

// The parent of row j: the smallest row in L_j above j; 0 if there is none.
pub fn parent(pattern: &Square, m: usize, j: usize) -> usize
    requires { (m ≤ 64) × IsRow j }
    ensures { result ≤ m }
{
    row_above(pattern, m, j).unwrap_or(0)
}

// ---- paths

// The rows that are left of a path: a row, its parent, and so on up to its root, but no more than some number.
#[derive(Drop)]
pub(crate) struct PathRows<'a> {
    pattern: &'a Square,
    m: usize,
    row: Option<usize>,
    left: usize,
    ghost m_served: { m ≤ 64 },
    ghost row_served: { ForSome row IsRow },
}

impl Iterator for PathRows<'_> {
    type Item = usize;

    ghost next_gives = { λ _ row _. IfSome row IsRow };

    ghost remaining = { λ path. at_most path.left };

    fn next(&mut self) -> Option<usize> {
        if self.left == 0 {
            return None;
        }
        let row = self.row?;
        self.row = row_above(self.pattern, self.m, row);
        self.left -= 1;
        Some(row)
    }
}

// The path of row j. It has at most m rows.
pub(crate) fn path(pattern: &Square, m: usize, j: usize) -> PathRows<'_>
    requires { (m ≤ 64) × IsRow j }
    ensures { result.left ≡ m }
{
    PathRows {
        pattern,
        m,
        row: Some(j),
        left: m,
    }
}

// How many rows the path of row j has.
pub fn path_length(pattern: &Square, m: usize, j: usize) -> usize
    requires { (m ≤ 64) × IsRow j }
    ensures { result ≤ m }
{
    path(pattern, m, j).count()
}

// ---- multiplicities

// How many children c of j have i in L_c.
fn children_with(pattern: &Square, m: usize, i: usize, j: usize) -> usize
    requires { (m ≤ 64) × IsRow i }
    ensures { result ≤ 64 }
{
    (1..m + 1)
        .filter(|&c| parent(pattern, m, c) == j && pattern::is_in(pattern, i, c))
        .count()
}

// Whether live column k starts at row j and holds row i.
fn is_start_with(holds: &Holds, live: &Live, m: usize, k: usize, i: usize, j: usize) -> bool
    requires { (m ≤ 64) × IsId k × IsRow i }
{
    columns::smallest_row(holds, live, m, k) == j && columns::has_row(holds, live, k, i)
}

// How many live columns with smallest row j hold row i.
fn starts_with(holds: &Holds, live: &Live, sizes: Sizes, i: usize, j: usize) -> usize
    requires { Served sizes.m sizes.n × IsRow i }
    ensures { result ≤ 256 }
{
    (1..sizes.n + 1)
        .filter(|&k| is_start_with(holds, live, sizes.m, k, i, j))
        .count()
}

// The multiplicity of i in L_j.
pub fn multiplicity(
    holds: &Holds,
    live: &Live,
    pattern: &Square,
    sizes: Sizes,
    i: usize,
    j: usize,
) -> usize
    requires { Served sizes.m sizes.n × IsRow i }
    ensures { result ≤ 321 }
{
    if i < j {
        return 0;
    }
    children_with(pattern, sizes.m, i, j) + starts_with(holds, live, sizes, i, j) + one(i == j)
}

// ---- sizes

// How many rows are in L_j.
pub fn size(pattern: &Square, m: usize, j: usize) -> usize
    requires { (m ≤ 64) × IsRow j }
    ensures { result ≤ 64 }
{
    (1..m + 1)
        .filter(|&i| pattern::is_in(pattern, i, j))
        .count()
}

// The sum of the sizes of L_1 to L_m.
pub fn sum_of_sizes(pattern: &Square, m: usize) -> usize
    requires { m ≤ 64 }
    ensures { result ≤ 4096 }
{
    total(m, |j| size(pattern, m, j))
}
