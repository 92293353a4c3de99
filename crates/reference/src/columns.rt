// The columns of A: which ids are booked, and which rows each holds. A mark is 1 for yes and 0 for no; the rows of an id that is not booked mean nothing.
// What reads columns is lent the marks of those that it is to look at: the live ones, or all that are booked.
// The chains here and in `tree` go over half-open ranges: inclusive ones ask twice at each step whether they are over, and `compare_clock` takes half as long again with them.
ghost use Rattle.std.specs.Prelude.{◌≤◌, ◌<◌};
ghost use Rattle.reference.specs.Ranges.{IsRow, IsId, Served};

use crate::{Booked, Holds, Live, total};

// 1 for yes, 0 for no.
pub fn one(yes: bool) -> usize
    ensures { result ≤ 1 }
{
    usize::from(yes)
}

// ---- reading

// Where the mark of row j stands for id i.
fn place(i: usize, j: usize) -> usize
    requires { IsId i × IsRow j }
    ensures { result < 16384 }
{
    (i - 1) * 64 + (j - 1)
}

pub fn is_marked(marks: &Live, i: usize) -> bool
    requires { IsId i }
{
    marks[i - 1] == 1
}

// Whether id i is live and holds row j.
pub fn has_row(holds: &Holds, live: &Live, i: usize, j: usize) -> bool
    requires { IsId i × IsRow j }
{
    is_marked(live, i) && holds[place(i, j)] == 1
}

// Whether some live column holds both rows.
pub fn is_shared(holds: &Holds, live: &Live, n: usize, a: usize, b: usize) -> bool
    requires { (n ≤ 256) × IsRow a × IsRow b }
{
    (1..n + 1).any(|i| has_row(holds, live, i, a) && has_row(holds, live, i, b))
}

// The smallest row of id i; 0 if it is not live.
pub fn smallest_row(holds: &Holds, live: &Live, m: usize, i: usize) -> usize
    requires { (m ≤ 64) × IsId i }
    ensures { result ≤ m }
{
    (1..m + 1)
        .find(|&j| has_row(holds, live, i, j))
        .unwrap_or(0)
}

// How many rows id i holds; 0 if it is not booked.
fn row_count(holds: &Holds, booked: &Booked, m: usize, i: usize) -> usize
    requires { (m ≤ 64) × IsId i }
    ensures { result ≤ 64 }
{
    (1..m + 1).filter(|&j| has_row(holds, booked, i, j)).count()
}

// How many rows the book holds: the sum over the booked columns.
pub fn book_rows(holds: &Holds, booked: &Booked, m: usize, n: usize) -> usize
    requires { Served m n }
    ensures { result ≤ 16384 }
{
    total(n, |i| row_count(holds, booked, m, i))
}

// ---- writing

// Id i holds no row.
fn empty(holds: &mut Holds, i: usize)
    requires { IsId i }
{
    holds[(i - 1) * 64..i * 64].fill(0);
}

// Id i leaves.
pub fn leave(booked: &mut Booked, i: usize)
    requires { IsId i }
{
    booked[i - 1] = 0;
}

// Every id leaves.
pub fn leave_all(booked: &mut Booked) {
    booked.fill(0);
}

// Id i holds row j too, if the tables have that row.
fn take_row(holds: &mut Holds, i: usize, j: usize)
    requires { IsId i }
{
    if (1..=64).contains(&j) {
        holds[place(i, j)] = 1;
    }
}

pub fn wide(x: u32) -> usize {
    x as usize
}

// Id i enters with `count` rows of the list, from place `from` onward. It gives the place after them.
pub fn enter(
    holds: &mut Holds,
    booked: &mut Booked,
    rows: &[u32],
    from: usize,
    count: usize,
    i: usize,
) -> usize
    requires { IsId i }
{
    empty(holds, i);
    booked[i - 1] = 1;
    for row in rows.iter().skip(from).take(count) {
        take_row(holds, i, wide(*row));
    }
    from + count.min(rows.len().saturating_sub(from))
}
