// Records, and parents, copied into the work table.
ghost use Rattle.snapshot.specs.Snapshot.{CanSaveRecords, RecordsSaved, CanSaveParents, ParentsSaved};

use workspace::UPPER_WEIGHT;

// Keeps all records in the 2F places from a on: each row with its multiplicity, and each next F places further.
pub fn save_records(rows: &[u16], counts: &[u16], next: &[u32], work: &mut [u32], a: usize)
    requires { CanSaveRecords rows.now counts.now next.now work.old a }
    ensures { RecordsSaved rows.now counts.now next.now work.old work.new a }
{
    let f = next.len();
    for (k, after) in next.iter().enumerate() {
        work[a + k] = rows[k] as u32 + UPPER_WEIGHT * (counts[k] as u32);
        work[a + f + k] = *after;
    }
}

// Keeps all parents in the m places from a on, which hold nothing else then.
pub fn save_parents(parents: &[u16], work: &mut [u32], a: usize)
    requires { CanSaveParents parents.now work.old a }
    ensures { ParentsSaved parents.now work.old work.new a }
{
    for (j, parent) in parents.iter().enumerate() {
        work[a + j] = *parent as u32;
    }
}
