// The marks of the rows to visit, and a flag for each block of 64 rows that has one: a mark is set with its flag, and the next marked row is found.
ghost use Rattle.std.specs.Prelude.{◌≡◌, ◌≤◌};
ghost use Rattle.updown.specs.Marks.{Room, start_marked, raised, Flagged, Next};

use crate::{LABEL_WEIGHT, START_BIT};
use book::Row;
use workspace::{BLOCK, MARKS};

// Marks a row where the batch column at position k starts, no row where that is row 0; positions come rising.
pub fn mark_start(work: &mut [u32], m: usize, flags: usize, row: Row, k: u32)
    requires { Room m flags work.old × (row.0 ≤ m) × (k ≤ 64) }
    ensures { work.new ≡ start_marked m flags work.old row.0 k }
{
    if row.0 == 0 {
        return;
    }
    let i = (row.0 - 1) as usize;
    work[MARKS * m + i] = LABEL_WEIGHT * k + START_BIT;
    work[flags + i / BLOCK] = 1;
}

// Marks a tree parent with at least a child's label.
pub fn mark_parent(work: &mut [u32], m: usize, flags: usize, row: Row, label: u32)
    requires { Room m flags work.old × (1 ≤ row.0) × (row.0 ≤ m) × (label ≤ 64) }
    ensures { work.new ≡ raised m flags work.old row.0 label }
{
    let i = (row.0 - 1) as usize;
    let x = work[MARKS * m + i];
    if x / LABEL_WEIGHT < label {
        work[MARKS * m + i] = LABEL_WEIGHT * label + x % LABEL_WEIGHT;
        work[flags + i / BLOCK] = 1;
    }
}

// The first marked row past the first `from` rows, or row 0.
pub fn next_marked(work: &[u32], m: usize, flags: usize, from: usize) -> Row
    requires { Room m flags work.now × Flagged m flags work.now from }
    ensures { Next m work.now from result.0 }
{
    let mut i = from;
    while i < m {
        if work[flags + i / BLOCK] == 0 {
            i = i / BLOCK * BLOCK + BLOCK;
        } else {
            if work[MARKS * m + i] != 0 {
                return Row((i + 1) as u32);
            }
            i += 1;
        }
    }
    Row(0)
}
