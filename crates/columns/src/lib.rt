// The stored columns of L: fresh ones, the first record at or above a row, a row's multiplicity, a column copied out, and a planned change of one column, in one
// walk of its chain. A chain's end is a premise, so no walk counts its turns.
#![tactic(auto)]

ghost use Rattle.std.specs.Prelude.{◌≡◌, List, ℕ, ◌≤◌, ◌<◌, length};
ghost use Rattle.lists.specs.Lists.{at, over, up_from};
ghost use Rattle.pool.specs.Chains.{chain};
ghost use Rattle.columns.specs.Search.{first_at, last_below, count_of, entries_at, CanSearch, CanCount, CanCopy};
ghost use Rattle.columns.specs.Apply.{CanApply, Applied, CanBegin, Begun};
ghost use Rattle.columns.specs.Opened.{opened_rows, CanOpen, Opened};
ghost use Rattle.columns.specs.Commit.{CanCommitChain, CommitReady, CommittedChain};

use book::Row;
use pool::Rec;
use workspace::Kind;

// Where a commit stands: the last record that is done, then the free chain's head.
#[derive(Clone, Copy)]
struct Spot(Rec, Rec);

// Writes fresh columns: column j is record j alone, the other records are free. Gives the free head.
pub fn open(
    heads: &mut [u32],
    parents: &mut [u16],
    rows: &mut [u16],
    counts: &mut [u16],
    next: &mut [u32],
) -> Rec
    requires { CanOpen heads.old parents.old rows.old counts.old next.old }
    ensures { Opened (length heads.old) (length next.old) heads.new parents.new rows.new counts.new next.new result.0 }
{
    let m = heads.len();
    number_heads(heads);
    parents.fill(0);
    number_rows(rows, m);
    counts[..m].fill(1);
    counts[m..].fill(0);
    pool::link_free(next, m as u32)
}

// Writes record j as the head of column j.
fn number_heads(heads: &mut [u32])
    requires { length heads.old < 65536 }
    ensures { heads.new ≡ up_from 1 (length heads.old) }
{
    for (i, head) in heads.iter_mut().enumerate() {
        *head = (i + 1) as u32;
    }
}

// Writes rows 1 to m, then 0.
fn number_rows(rows: &mut [u16], m: usize)
    requires { (m ≤ length rows.old) × (m < 65536) }
    ensures { rows.new ≡ opened_rows m (length rows.old) }
{
    for (i, row) in rows[..m].iter_mut().enumerate() {
        *row = (i + 1) as u16;
    }
    rows[m..].fill(0);
}

// The first record of the chain from head whose row is at or above i, or record 0.
pub fn first_at(rows: &[u16], next: &[u32], head: Rec, i: Row) -> Rec
    requires { CanSearch rows.now next.now head.0 }
    ensures { result.0 ≡ first_at rows.now (chain next.now head.0) i.0 }
{
    let bound = i.0;
    let mut r = head.0;
    while r != 0 {
        let k = (r - 1) as usize;
        if bound <= rows[k] as u32 {
            return Rec(r);
        }
        r = next[k];
    }
    Rec(0)
}

// The multiplicity of row i in the chain from head, 0 when absent.
pub fn count_at(rows: &[u16], counts: &[u16], next: &[u32], head: Rec, i: Row) -> u32
    requires { CanCount rows.now counts.now next.now head.0 }
    ensures { result ≡ count_of rows.now counts.now (chain next.now head.0) i.0 }
{
    let found = first_at(rows, next, head, i);
    let r = found.0;
    if r == 0 {
        return 0;
    }
    let k = (r - 1) as usize;
    if rows[k] as u32 != i.0 {
        return 0;
    }
    counts[k] as u32
}

// Writes row and multiplicity of each record of the chain from head to the front of list, and gives the number of records.
pub fn copy_column(rows: &[u16], counts: &[u16], next: &[u32], list: &mut [u32], head: Rec) -> u32
    requires { CanCopy rows.now counts.now next.now list.old head.0 }
    ensures number { result ≡ length (chain next.now head.0) }
    ensures written { list.new ≡ over (entries_at rows.now counts.now (chain next.now head.0)) list.old }
{
    let mut r = head.0;
    let mut k: usize = 0;
    while r != 0 {
        let i = (r - 1) as usize;
        list[2 * k] = rows[i] as u32;
        list[2 * k + 1] = counts[i] as u32;
        r = next[i];
        k += 1;
    }
    k as u32
}

// The last record below row i of a chain from record p on, or p.
fn advance(rows: &[u16], next: &[u32], p: Rec, i: Row) -> Rec
    requires { (1 ≤ p.0) × CanSearch rows.now next.now p.0 }
    ensures { result.0 ≡ last_below rows.now p.0 (chain next.now (at next.now p.0)) i.0 }
{
    let least = i.0;
    let mut r = p.0;
    let mut q = next[(r - 1) as usize];
    while q != 0 {
        let k = (q - 1) as usize;
        if least <= rows[k] as u32 {
            return Rec(r);
        }
        r = q;
        q = next[k];
    }
    Rec(r)
}

// Applies one planned entry to a chain, from record p on, whose row is below the entry's.
fn apply_entry(
    rows: &mut [u16],
    counts: &mut [u16],
    next: &mut [u32],
    p: Rec,
    free: Rec,
    entry: u32,
) -> Spot
    requires { CanApply rows.old counts.old next.old p.0 free.0 entry }
    ensures { Applied rows.old counts.old next.old p.0 free.0 entry rows.new counts.new next.new result.0.0 result.1.0 }
{
    let row = workspace::row_of(entry);
    let count = workspace::multiplicity_of(entry) as u16;
    let before = advance(rows, next, p, Row(row));
    if workspace::is_of(entry, Kind::New) {
        let z = free.0;
        let j = (z - 1) as usize;
        rows[j] = row as u16;
        counts[j] = count;
        let left = pool::insert_after(next, before, free);
        return Spot(free, left);
    }
    let b = before.0;
    let q = next[(b - 1) as usize];
    let k = (q - 1) as usize;
    if workspace::is_of(entry, Kind::Changed) {
        counts[k] = count;
        return Spot(Rec(q), free);
    }
    rows[k] = 0;
    counts[k] = 0;
    pool::unlink_after(next, before, Rec(q), free);
    Spot(before, Rec(q))
}

// Writes the multiplicity of the plan's first entry, where it is for the head's row, and gives how many entries are done: 1 or 0.
fn commit_first(rows: &[u16], counts: &mut [u16], plan: &[u32], head: Rec) -> usize
    requires { CanBegin rows.now counts.old plan.now head.0 }
    ensures { Begun rows.now counts.old plan.now head.0 counts.new result }
{
    if plan.len() == 0 {
        return 0;
    }
    let entry = plan[0];
    let row = workspace::row_of(entry);
    let count = workspace::multiplicity_of(entry);
    let h = head.0;
    let i = (h - 1) as usize;
    if row != rows[i] as u32 {
        return 0;
    }
    counts[i] = count as u16;
    1
}

// Applies a plan to the chain from head, whose first row stays: entries that stay keep their record, new ones take free records, gone ones are zeroed
// and given back. Gives the free chain's head.
pub fn commit_column(
    rows: &mut [u16],
    counts: &mut [u16],
    next: &mut [u32],
    plan: &[u32],
    head: Rec,
    free: Rec,
) -> Rec
    requires { CommitReady rows.old counts.old next.old head.0 free.0 plan.now }
    ensures { (ns : List ℕ) → CanCommitChain rows.old counts.old next.old head.0 free.0 ns plan.now → CommittedChain rows.old counts.old next.old head.0 free.0 ns plan.now rows.new counts.new next.new result.0 }
{
    let k = commit_first(rows, counts, plan, head);
    let mut p = head;
    let mut z = free;
    for &entry in &plan[k..] {
        let s = apply_entry(rows, counts, next, p, z, entry);
        p = s.0;
        z = s.1;
    }
    z
}
