// The patterns of L by the chain rule: row i > j is in L_j exactly if a chain of rows leads from j to i, whose neighbours share a live column and
// whose rows between are smaller than j. No tree is used.
ghost use Rattle.std.specs.Prelude.{◌≤◌, ◌<◌};
ghost use Rattle.reference.specs.Ranges.{IsRow, Served};

use crate::{Holds, Live, Marks, Sizes, Square, columns};

pub fn mark(yes: bool) -> u8 {
    u8::from(yes)
}

// Where the mark of row i stands for row j.
fn place(i: usize, j: usize) -> usize
    requires { IsRow i × IsRow j }
    ensures { result < 4096 }
{
    (j - 1) * 64 + (i - 1)
}

// Whether row i is marked for row j: of a pattern, whether it is in L_j.
pub fn is_in(square: &Square, i: usize, j: usize) -> bool
    requires { IsRow i × IsRow j }
{
    square[place(i, j)] == 1
}

// ---- neighbours: rows that share a live column

// Marks the neighbours of every row.
fn join(holds: &Holds, live: &Live, near: &mut Square, m: usize, n: usize)
    requires { Served m n }
{
    for a in 1..=m {
        for b in 1..=m {
            near[place(b, a)] = mark(columns::is_shared(holds, live, n, a, b));
        }
    }
}

// ---- chains

// Reaches the neighbours of row x. Whether one of them is new.
fn spread(near: &Square, reached: &mut Marks, m: usize, x: usize) -> bool
    requires { (m ≤ 64) × IsRow x }
{
    let mut more = false;
    for y in 1..=m {
        if is_in(near, y, x) && reached[y - 1] == 0 {
            reached[y - 1] = 1;
            more = true;
        }
    }
    more
}

// One step further: from row j, and from each reached row smaller than j. Whether it reaches a new row.
fn step(near: &Square, reached: &mut Marks, m: usize, j: usize) -> bool
    requires { (m ≤ 64) × IsRow j }
{
    let mut more = false;
    for x in 1..=j {
        more |= reached[x - 1] == 1 && spread(near, reached, m, x);
    }
    more
}

// Reaches what a chain from row j leads to: steps until nothing is new. Fewer than j rows stand between, so j steps are enough.
fn reach(near: &Square, reached: &mut Marks, m: usize, j: usize)
    requires { (m ≤ 64) × IsRow j }
{
    reached[j - 1] = 1;
    for _ in 0..j {
        if !step(near, reached, m, j) {
            return;
        }
    }
}

// ---- patterns

// Writes L_j: row j and the reached rows above it.
fn write(pattern: &mut Square, reached: &Marks, m: usize, j: usize)
    requires { (m ≤ 64) × IsRow j }
{
    for i in 1..=m {
        pattern[place(i, j)] = if i < j { 0 } else { reached[i - 1] };
    }
}

fn fill(near: &Square, pattern: &mut Square, m: usize, j: usize)
    requires { (m ≤ 64) × IsRow j }
{
    let mut reached = [0u8; 64];
    reach(near, &mut reached, m, j);
    write(pattern, &reached, m, j);
}

// Writes L_1 to L_m for the live columns.
pub fn fills(holds: &Holds, live: &Live, pattern: &mut Square, sizes: Sizes)
    requires { Served sizes.m sizes.n }
{
    let m = sizes.m;
    let mut near = [0u8; 4096];
    join(holds, live, &mut near, m, sizes.n);
    for j in 1..=m {
        fill(&near, pattern, m, j);
    }
}
