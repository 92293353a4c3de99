// The question for the next row on both: the first row at or above i in column j, with its multiplicity. The reference's pattern is lent, since many are asked
// at one point of a history.
ghost use Rattle.std.specs.Prelude.{◌≤◌};

use crate::pair::{Pair, mark_live, served};
use crate::same;
use reference::Square;

pub fn asked(p: Pair, pattern: &Square, i: u32, j: u32) -> Pair {
    let mut q = p;
    let holds = p.holds;
    let mut live = [0u8; 256];
    mark_live(p, &mut live);
    let ours = p.host.next_row(i, j);
    let theirs = reference::questions::next_row(
        &holds,
        &live,
        pattern,
        served(p.sizes),
        i as usize,
        j as usize,
    );
    let same = same::found(ours, theirs);
    let t = p.tally;
    q.tally = t.counted(ours.number, same).found(ours.number, i, ours.row);
    q
}

// From rows 0 to m + 1 in column j.
fn of_column(p: Pair, pattern: &Square, m: u32, j: u32) -> Pair
    requires { m ≤ 64 }
{
    let mut q = p;
    for i in 0..m + 2 {
        q = asked(q, pattern, i, j);
    }
    q
}

// The same in columns 0 to m + 1.
pub fn every(p: Pair, pattern: &Square, m: u32) -> Pair
    requires { m ≤ 64 }
{
    let mut q = p;
    for j in 0..m + 2 {
        q = of_column(q, pattern, m, j);
    }
    q
}
