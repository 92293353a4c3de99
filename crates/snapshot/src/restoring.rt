// Records, and parents, brought back from the work table.
ghost use Rattle.std.specs.Prelude.{◌+◌, ◌≤◌, length};
ghost use Rattle.snapshot.specs.Snapshot.{CanUnpair, Unpaired, Taken};

use workspace::UPPER_WEIGHT;

// Brings back all records from the 2F places from a on.
pub fn restore_records(
    rows: &mut [u16],
    counts: &mut [u16],
    next: &mut [u32],
    work: &[u32],
    a: usize,
)
    requires { CanUnpair rows.old counts.old next.old work.now a }
    ensures { Unpaired rows.new counts.new next.new work.now a }
{
    let f = next.len();
    for (k, after) in next.iter_mut().enumerate() {
        let x = work[a + k];
        rows[k] = (x % UPPER_WEIGHT) as u16;
        counts[k] = (x / UPPER_WEIGHT) as u16;
        *after = work[a + f + k];
    }
}

// Brings back all parents from the lower parts of the m places from a on.
pub fn restore_parents(parents: &mut [u16], work: &[u32], a: usize)
    requires { a + length parents.old ≤ length work.now }
    ensures { Taken parents.new work.now a }
{
    for (j, parent) in parents.iter_mut().enumerate() {
        *parent = (work[a + j] % UPPER_WEIGHT) as u16;
    }
}
