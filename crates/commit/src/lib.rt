// A plan in the work table, made real: its columns gathered, where several plans are written one after another; reported; and written to the stored
// columns of L, each touched column in one walk of its chain, then its new parent; that clears the plan from the work table. The cost is that of the
// touched columns and their plans: no pass over m or the records.
#![tactic(auto)]

ghost use Rattle.std.specs.Prelude.{◌≡◌, List, ℕ, ◌+◌, length};
ghost use Rattle.symbolic.specs.Factor.{FactorColumn};
ghost use Rattle.workspace.specs.Layout.{plan_at};
ghost use Rattle.pool.specs.Chains.{chain};
ghost use Rattle.tables.specs.Stored.{stored_of};
ghost use Rattle.tables.specs.Lent.{columns_lent, SameColumns};
ghost use Rattle.commit.specs.Writes.{SomeWrite, WrittenAll};
ghost use Rattle.commit.specs.Passes.{end_of, CanEnd, CanCommitPlans, SomeCommits, PlansCommitted, CanWriteParents, SomeParents, ParentsWritten};
ghost use Rattle.commit.specs.Report.{CanReport, SomeReport, Reported};
ghost use Rattle.commit.specs.Gather.{with_size, CanCount, CanGatherColumns, SomeGatherColumns, ColumnsGathered};

use book::Row;
use pool::Rec;
use tables::ColumnsMut;
use updown::{LABEL_WEIGHT, PARENT_WEIGHT};
use workspace::{MARKS, NEXT, PLAN, STARTS, UPPER_WEIGHT};

// The most entries that a column has.
const LONGEST: u32 = 4096;

// Where the plan of a column ends in the work table, by the touched column after it (0: none).
fn plan_end(work: &[u32], m: usize, after: Row, used: u32) -> usize
    requires { CanEnd m work.now after.0 }
    ensures { result ≡ plan_at m + end_of m work.now after.0 used }
{
    if after.0 == 0 {
        return PLAN * m + used as usize;
    }
    let k = (after.0 - 1) as usize;
    PLAN * m + work[STARTS * m + k] as usize
}

// Commits the planned columns from the first on, and gives the free head. It ends, since the touched columns rise.
fn commit_columns(
    heads: &[u32],
    rows: &mut [u16],
    counts: &mut [u16],
    next: &mut [u32],
    work: &[u32],
    first: Row,
    used: u32,
    free: Rec,
) -> Rec
    requires { SomeCommits heads.now rows.old counts.old next.old free.0 work.now first.0 used }
    ensures { (ps : List ℕ) (L L' : List FactorColumn) (label : ℕ → ℕ) (columns : List ℕ) → CanCommitPlans (stored_of heads.now ps rows.old counts.old next.old free.0) L L' label columns work.now first.0 used → PlansCommitted (stored_of heads.now ps rows.old counts.old next.old free.0) L' columns (stored_of heads.now ps rows.new counts.new next.new result.0) }
{
    let m = heads.len();
    let mut j = first;
    let mut z = free;
    while j.0 != 0 {
        let k = (j.0 - 1) as usize;
        let after = Row(work[NEXT * m + k]);
        let a = PLAN * m + work[STARTS * m + k] as usize;
        let e = plan_end(work, m, after, used);
        z = columns::commit_column(rows, counts, next, &work[a..e], Rec(heads[k]), z);
        j = after;
    }
    z
}

// Writes the new parents of the planned columns from the first on, and clears their places of the work table.
fn write_parents(parents: &mut [u16], work: &mut [u32], first: Row)
    requires { SomeParents parents.old work.old first.0 }
    ensures { (L L' : List FactorColumn) (label : ℕ → ℕ) (columns : List ℕ) (used : ℕ) → CanWriteParents L L' label columns parents.old work.old first.0 used → ParentsWritten L' columns parents.old work.old parents.new work.new }
{
    let m = parents.len();
    let mut j = first;
    while j.0 != 0 {
        let k = (j.0 - 1) as usize;
        let mark = work[MARKS * m + k];
        let after = Row(work[NEXT * m + k]);
        parents[k] = (mark / PARENT_WEIGHT) as u16;
        work[MARKS * m + k] = 0;
        work[STARTS * m + k] = 0;
        work[NEXT * m + k] = 0;
        j = after;
    }
}

// Writes the planned columns from the first on and their labels to the report, and changes nothing else.
pub fn report(work: &[u32], touched: &mut [u16], labels: &mut [u16], m: usize, first: Row)
    requires { SomeReport m work.now touched.old labels.old first.0 }
    ensures { (L L' : List FactorColumn) (label : ℕ → ℕ) (columns : List ℕ) (used : ℕ) → CanReport m L L' label columns work.now touched.old labels.old first.0 used → Reported label columns touched.old labels.old touched.new labels.new }
{
    let mut j = first;
    let mut t: usize = 0;
    while j.0 != 0 {
        let k = (j.0 - 1) as usize;
        let mark = work[MARKS * m + k];
        let after = Row(work[NEXT * m + k]);
        touched[t] = j.0 as u16;
        labels[t] = (mark / LABEL_WEIGHT % 65536) as u16;
        j = after;
        t += 1;
    }
}

// Writes the plan whose first touched column is given and that uses so many places: from a factor to the one planned. Gives the free head.
pub fn write_plan(
    columns: &mut ColumnsMut,
    work: &mut [u32],
    first: Row,
    used: u32,
    free: Rec,
) -> Rec
    requires { SomeWrite (columns_lent columns.old free.0) work.old first.0 used }
    ensures same { SameColumns columns.old columns.new }
    ensures written { WrittenAll (columns_lent columns.old free.0) work.old first.0 used (columns_lent columns.new result.0) work.new }
{
    let z = commit_columns(
        columns.heads,
        columns.rows,
        columns.counts,
        columns.next,
        work,
        first,
        used,
        free,
    );
    write_parents(columns.parents, work, first);
    workspace::clear(work, PLAN * columns.heads.len(), used as usize);
    z
}

// A place with the size of the chain from head, unless it has one.
fn with_size(next: &[u32], head: Rec, place: u32) -> u32
    requires { CanCount next.now head.0 }
    ensures { result ≡ with_size place (length (chain next.now head.0)) }
{
    if place >= UPPER_WEIGHT {
        return place;
    }
    let n = pool::count(next, head, LONGEST);
    place + UPPER_WEIGHT * (1 + n)
}

// Gathers the planned columns from the first on, in the places of all columns from one on: each that has no size there is given the one that it has now.
pub fn gather(heads: &[u32], next: &[u32], work: &mut [u32], at: usize, first: Row)
    requires { SomeGatherColumns heads.now next.now work.old at first.0 }
    ensures { (L L' : List FactorColumn) (label : ℕ → ℕ) (columns : List ℕ) (used : ℕ) → CanGatherColumns heads.now next.now L L' label columns work.old at first.0 used → ColumnsGathered heads.now next.now columns at work.old work.new }
{
    let m = heads.len();
    let mut j = first;
    while j.0 != 0 {
        let k = (j.0 - 1) as usize;
        let after = Row(work[NEXT * m + k]);
        work[at + k] = with_size(next, Rec(heads[k]), work[at + k]);
        j = after;
    }
}
