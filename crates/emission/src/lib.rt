// The plan of one column from its differences: one walk of the column's chain against its touched rows, which costs no more than the two. The plan has
// one entry for each row that changes; the walk also gives what the column counts for in the batch's entries and its parent after, and clears the differences
// and the list.
#![tactic(auto)]

ghost use Rattle.std.specs.Prelude.{◌≡◌, ◌≢◌, ◌+◌, ◌*◌, ◌≤◌, ◌<◌, length, set};
ghost use Rattle.lists.specs.Lists.{at};
ghost use Rattle.workspace.specs.Layout.{plan_at};
ghost use Rattle.workspace.specs.Planned.{kind_number};
ghost use Rattle.emission.specs.Plans.{kind_for};
ghost use Rattle.emission.specs.Walks.{first_over, stays, on_to, longer, taking, CanPass, Passed, stored_at, counting, advanced, CanPlan, Planned};
ghost use Rattle.emission.specs.Emit.{Ready, Emits};

use book::Row;
use differences::BASE;
use pool::Rec;
use workspace::Kind;

// A walk of a chain: the record at hand and how many are behind it, the plan's end, the rows counted and the first above the diagonal, the next free record,
// and whether there was one for each new row.
#[derive(Clone, Copy)]
pub struct Walk {
    pub at: Rec,
    pub behind: usize,
    pub used: usize,
    pub size: usize,
    pub parent: Row,
    pub avail: Rec,
    pub fits: bool,
}

// A column planned: whether there are free records for its new rows, the plan's end, the larger of the column's sizes before and after, which is what it
// counts for in the batch's entries, its parent after, and the free records left.
#[derive(Clone, Copy)]
pub struct Emission {
    pub fits: bool,
    pub used: usize,
    pub larger: usize,
    pub parent: Row,
    pub avail: Rec,
}

// The first row above j so far, with one row more.
fn first_over(j: Row, first: Row, row: Row) -> Row
    ensures { result.0 ≡ first_over j.0 first.0 row.0 }
{
    if first.0 == 0 && j.0 < row.0 {
        row
    } else {
        first
    }
}

// Counts a row that stays.
fn stay(walk: Walk, j: Row, row: Row) -> Walk
    requires { walk.size < 4294967295 }
    ensures { result ≡ stays j.0 row.0 walk }
{
    Walk {
        size: walk.size + 1,
        parent: first_over(j, walk.parent, row),
        ..walk
    }
}

// Leaves the record at hand behind, for the next one.
fn on_to(walk: Walk, r: Rec) -> Walk
    requires { walk.behind < 4294967295 }
    ensures { result ≡ on_to r.0 walk }
{
    Walk {
        at: r,
        behind: walk.behind + 1,
        ..walk
    }
}

// Passes over the records with rows below a bound: they stay.
fn pass(rows: &[u16], next: &[u32], walk: Walk, j: Row, bound: Row) -> Walk
    requires { CanPass rows.now next.now walk }
    ensures { Passed rows.now next.now j.0 bound.0 walk result }
{
    let least = bound.0;
    let mut w = walk;
    while w.at.0 != 0 {
        let r = w.at.0;
        let i = (r - 1) as usize;
        let row = rows[i] as u32;
        if least <= row {
            return w;
        }
        w = stay(w, j, Row(row));
        let q = next[i];
        w = on_to(w, Rec(q));
    }
    w
}

// The multiplicity of a row in the record at hand, 0 if that is of another row.
fn stored(rows: &[u16], counts: &[u16], r: Rec, row: Row) -> u32
    requires { (r.0 ≤ length rows.now) × (r.0 ≤ length counts.now) }
    ensures { result ≡ stored_at rows.now counts.now r.0 row.0 }
{
    let k = r.0;
    if k == 0 {
        return 0;
    }
    let i = (k - 1) as usize;
    let x = row.0;
    if rows[i] as u32 != x {
        return 0;
    }
    counts[i] as u32
}

// Leaves the record at hand behind if the row was there.
fn advance(next: &[u32], walk: Walk, old: u32) -> Walk
    requires { old ≢ 0 → (1 ≤ walk.at.0) × (walk.at.0 ≤ length next.now) × (walk.behind < 4294967295) }
    ensures { result ≡ advanced next.now old walk }
{
    if old == 0 {
        return walk;
    }
    let r = walk.at.0;
    let q = next[(r - 1) as usize];
    on_to(walk, Rec(q))
}

// The kind of a planned change.
fn kind_for(old: u32, new: u32) -> Kind
    ensures { kind_number result ≡ kind_for old new }
{
    if old == 0 {
        Kind::New
    } else if 0 < new {
        Kind::Changed
    } else {
        Kind::Gone
    }
}

// Counts a row with its new multiplicity, if it stays.
fn count_row(walk: Walk, j: Row, row: Row, new: u32) -> Walk
    requires { walk.size < 4294967295 }
    ensures { result ≡ counting j.0 row.0 new walk }
{
    if new == 0 {
        return walk;
    }
    stay(walk, j, row)
}

// Takes the next free record.
fn take_free(next: &[u32], walk: Walk) -> Walk
    requires { (1 ≤ walk.avail.0) × (walk.avail.0 ≤ length next.now) }
    ensures { result ≡ taking next.now walk }
{
    let left = next[(walk.avail.0 - 1) as usize];
    let mut w = walk;
    w.avail = Rec(left);
    w
}

// Writes an entry at the plan's end.
fn put(work: &mut [u32], m: usize, walk: Walk, entry: u32) -> Walk
    requires { plan_at m + walk.used < length work.old }
    ensures work { work.new ≡ set work.old (plan_at m + walk.used) entry }
    ensures walk { result ≡ longer walk }
{
    let used = walk.used;
    work[workspace::PLAN * m + used] = entry;
    let mut w = walk;
    w.used = used + 1;
    w
}

// Plans a row whose multiplicity goes from old to new.
fn plan_row(
    next: &[u32],
    work: &mut [u32],
    m: usize,
    walk: Walk,
    row: Row,
    old: u32,
    new: u32,
) -> Walk
    requires { CanPlan next.now work.old m row.0 old new walk }
    ensures { Planned next.now work.old m row.0 old new walk work.new result }
{
    if old == new {
        return walk;
    }
    if old != 0 {
        return put(
            work,
            m,
            walk,
            workspace::pack(row.0, new, kind_for(old, new).number()),
        );
    }
    if walk.avail.0 == 0 {
        return Walk {
            fits: false,
            ..walk
        };
    }
    put(
        work,
        m,
        take_free(next, walk),
        workspace::pack(row.0, new, kind_for(old, new).number()),
    )
}

// Plans column j, whose chain starts at head and whose n touched rows are in the list, from place used of the plan on, with free records from avail on.
pub fn emit(
    rows: &[u16],
    counts: &[u16],
    next: &[u32],
    work: &mut [u32],
    m: usize,
    n: usize,
    j: Row,
    head: Rec,
    used: usize,
    avail: Rec,
) -> Emission
    requires { Ready rows.now counts.now next.now work.old m n j.0 head.0 used avail.0 }
    ensures { Emits rows.now counts.now next.now work.old m n j.0 head.0 used avail.0 work.new result }
{
    let mut walk = Walk {
        at: head,
        behind: 0,
        used,
        size: 0,
        parent: Row(0),
        avail,
        fits: true,
    };
    for i in 0..n {
        let row = work[m + i];
        let k = (row - 1) as usize;
        let x = work[k];
        work[k] = 0;
        work[m + i] = 0;
        if walk.fits {
            let w = pass(rows, next, walk, j, Row(row));
            let at = w.at;
            let old = stored(rows, counts, at, Row(row));
            let new = old + x - BASE;
            let v = count_row(advance(next, w, old), j, Row(row), new);
            walk = plan_row(next, work, m, v, Row(row), old, new);
        }
    }
    let last = pass(rows, next, walk, j, Row(4097));
    Emission {
        fits: last.fits,
        used: last.used,
        larger: last.behind.max(last.size),
        parent: last.parent,
        avail: last.avail,
    }
}
