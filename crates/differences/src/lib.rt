// Changes of one column's multiplicities while a batch is planned, as differences in the work table: rows are gathered in the buffer, rising, and counted
// up or down. Regions of the work table: differences at 0, list of touched rows at m, buffer at 2 m, plan at 8 m. The crate `emission` turns what was
// counted into the column's plan.
#![tactic(auto)]

ghost use Rattle.std.specs.Prelude.{◌≡◌, true, ◌&&◌, ◌||◌, not, ◌+◌, ◌-◌, ◌*◌, ◌≤◌, ◌<◌, ltb, length};
ghost use Rattle.lists.specs.Lists.{among, rises, values_at};
ghost use Rattle.workspace.specs.Layout.{plan_at};
ghost use Rattle.workspace.specs.Planned.{new_kind, gone_kind};
ghost use Rattle.workspace.specs.Regions.{cell};
ghost use Rattle.pool.specs.Chains.{chain};
ghost use Rattle.differences.specs.Gather.{rows_of_kind, plan_part, CanGather, PlanRises, ChainRises, CanGrow, Gathered, CanPass, Passed, gone_at, CanReach, Reached};
ghost use Rattle.differences.specs.Tally.{shifted};
ghost use Rattle.differences.specs.Count.{bumped_to, CanCount, Counted, Bumped, CanMerge, Merged};

use book::Row;
use pool::Rec;
use workspace::{BUFFER, Kind, PLAN};

// 2^30, the shifted difference of a row whose multiplicity does not change.
pub const BASE: u32 = 1073741824;

// How far a gathering came: the rows in the buffer, and the first entry of the plan that it did not pass.
#[derive(Clone, Copy)]
pub struct Reach {
    pub rows: usize,
    pub stop: usize,
}

// Gathers the rows of a list, and gives their number.
pub fn gather_rows(work: &mut [u32], list: &[u32], m: usize) -> usize
    requires { CanGather m work.old × (rises 1 m list.now ≡ true) }
    ensures { Gathered m work.old work.new result (λ i. among i list.now) }
{
    for (k, row) in list.iter().enumerate() {
        work[BUFFER * m + k] = *row;
    }
    list.len()
}

// Gathers, after k others, the rows of one kind below a bound from the part [from, to) of the plan, up to the first entry at or above the bound.
fn gather_below(
    work: &mut [u32],
    m: usize,
    k: usize,
    from: usize,
    to: usize,
    kind: u32,
    bound: Row,
) -> Reach
    requires { CanReach m work.old k from to kind }
    ensures { Reached m work.old work.new k from to kind bound.0 result.rows result.stop }
{
    let least = bound.0;
    let mut n = k;
    for a in from..to {
        let entry = work[PLAN * m + a];
        let row = workspace::row_of(entry);
        if least <= row {
            return Reach { rows: n, stop: a };
        }
        if workspace::kind_of(entry) == kind {
            work[BUFFER * m + n] = row;
            n += 1;
        }
    }
    Reach { rows: n, stop: to }
}

// Gathers the rows of one kind, given by its number, from the part [from, to) of the plan, and gives their number.
pub fn gather_plan(work: &mut [u32], m: usize, from: usize, to: usize, kind: u32) -> usize
    requires { CanGather m work.old × PlanRises m work.old from to }
    ensures { Gathered m work.old work.new result (λ i. among i (rows_of_kind kind (plan_part m work.old from to))) }
{
    let r = gather_below(work, m, 0, from, to, kind, Row(4097));
    r.rows
}

// Gathers the rows of the records from r on, and gives their number.
pub fn gather_chain(rows: &[u16], next: &[u32], work: &mut [u32], m: usize, r: Rec) -> usize
    requires { CanGather m work.old × ChainRises m rows.now next.now r.0 }
    ensures { Gathered m work.old work.new result (λ i. among i (values_at rows.now (chain next.now r.0))) }
{
    let mut q = r.0;
    let mut k: usize = 0;
    while q != 0 {
        let i = (q - 1) as usize;
        work[BUFFER * m + k] = rows[i] as u32;
        q = next[i];
        k += 1;
    }
    k
}

// Gathers the rows of the records from r on together with the new rows of the part [from, to) of the plan, and gives their number.
pub fn gather_grown(
    rows: &[u16],
    next: &[u32],
    work: &mut [u32],
    m: usize,
    r: Rec,
    from: usize,
    to: usize,
) -> usize
    requires { CanGrow m rows.now next.now work.old r.0 from to }
    ensures { Gathered m work.old work.new result (λ i. among i (values_at rows.now (chain next.now r.0)) || among i (rows_of_kind new_kind (plan_part m work.old from to))) }
{
    let mut q = r.0;
    let mut k: usize = 0;
    let mut a = from;
    while q != 0 {
        let i = (q - 1) as usize;
        let row = rows[i] as u32;
        let met = gather_below(work, m, k, a, to, Kind::New as u32, Row(row));
        k = met.rows;
        a = met.stop;
        work[BUFFER * m + k] = row;
        q = next[i];
        k += 1;
    }
    let last = gather_below(work, m, k, a, to, Kind::New as u32, Row(4097));
    last.rows
}

// The first entry of the part [from, to) of the plan at or above a row.
fn pass(work: &[u32], m: usize, from: usize, to: usize, row: Row) -> usize
    requires { CanPass m work.now from to }
    ensures { Passed m work.now from to row.0 result }
{
    let least = row.0;
    for a in from..to {
        if least <= workspace::row_of(work[PLAN * m + a]) {
            return a;
        }
    }
    to
}

// Whether the entry at a place of the plan, before to, is that a row is gone.
fn is_gone(work: &[u32], m: usize, a: usize, to: usize, row: Row) -> bool
    requires { plan_at m + to ≤ length work.now }
    ensures { result ≡ gone_at m work.now a to row.0 }
{
    if to <= a {
        return false;
    }
    let entry = work[PLAN * m + a];
    workspace::row_of(entry) == row.0 && workspace::is_of(entry, Kind::Gone)
}

// Gathers the rows of the records from r on but for the gone rows of the part [from, to) of the plan, and gives their number.
pub fn gather_pruned(
    rows: &[u16],
    next: &[u32],
    work: &mut [u32],
    m: usize,
    r: Rec,
    from: usize,
    to: usize,
) -> usize
    requires { CanGather m work.old × ChainRises m rows.now next.now r.0 × PlanRises m work.old from to }
    ensures { Gathered m work.old work.new result (λ i. among i (values_at rows.now (chain next.now r.0)) && not (among i (rows_of_kind gone_kind (plan_part m work.old from to)))) }
{
    let mut q = r.0;
    let mut k: usize = 0;
    let mut a = from;
    while q != 0 {
        let i = (q - 1) as usize;
        let row = rows[i] as u32;
        a = pass(work, m, a, to, Row(row));
        if is_gone(work, m, a, to, Row(row)) {
            q = next[i];
        } else {
            work[BUFFER * m + k] = row;
            q = next[i];
            k += 1;
        }
    }
    k
}

// The place of a row counted up or down, where its place was x.
fn bumped(x: u32, up: bool) -> u32
    requires { (1 ≤ shifted x) × (shifted x < 2147483647) }
    ensures { result ≡ bumped_to up (shifted x) }
{
    let d = if x == 0 { BASE } else { x };
    if up { d + 1 } else { d - 1 }
}

// Counts the k rows in the buffer into the differences, up or down; those that were not touched before stay at the front of the buffer. Gives their number.
fn bump(work: &mut [u32], m: usize, n: usize, k: usize, up: bool) -> usize
    requires { CanCount m work.old n k }
    ensures { Bumped m work.old n k up work.new result }
{
    let mut f: usize = 0;
    for i in 0..k {
        let row = work[BUFFER * m + i];
        let place = (row - 1) as usize;
        let x = work[place];
        work[place] = bumped(x, up);
        work[BUFFER * m + i] = 0;
        if x == 0 {
            work[BUFFER * m + f] = row;
            f += 1;
        }
    }
    f
}

// Whether the last of the first i rows of the list is above a row.
fn is_above(work: &[u32], m: usize, i: usize, row: Row) -> bool
    requires { m + i ≤ length work.now }
    ensures { result ≡ (ltb 0 i && ltb row.0 (cell work.now m (i - 1))) }
{
    0 < i && row.0 < work[m + (i - 1)]
}

// Merges the f rows in the buffer into the n of the list, from the back, and clears them.
fn merge(work: &mut [u32], m: usize, n: usize, f: usize)
    requires { CanMerge m work.old n f }
    ensures { Merged m work.old n f work.new }
{
    let mut i = n;
    let mut k = f;
    while 0 < k {
        let row = work[BUFFER * m + (k - 1)];
        if is_above(work, m, i, Row(row)) {
            work[m + (i + k - 1)] = work[m + (i - 1)];
            i -= 1;
        } else {
            work[m + (i + k - 1)] = row;
            work[BUFFER * m + (k - 1)] = 0;
            k -= 1;
        }
    }
}

// Counts the k rows in the buffer into the differences, up or down, and gives the number of touched rows in the list, of which there were n.
pub fn count_rows(work: &mut [u32], m: usize, n: usize, k: usize, up: bool) -> usize
    requires { CanCount m work.old n k }
    ensures { Counted m work.old k up work.new result }
{
    let f = bump(work, m, n, k, up);
    merge(work, m, n, f);
    n + f
}
