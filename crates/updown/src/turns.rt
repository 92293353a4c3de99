// The first and the last steps of a turn: the next column is taken, its plan is written, and one step is taken up the tree.
ghost use Rattle.std.specs.Prelude.{◌≡◌, Bool, true, List, ◌+◌, ◌≤◌, ◌<◌, eqb, length};
ghost use Rattle.lists.specs.Lists.{pick};
ghost use Rattle.updown.specs.Marks.{Room, mark_at, Flagged, begun, stepped_up, Taken, up_at, CanStep, SteppedTo};
ghost use Rattle.symbolic.specs.Columns.{Column};
ghost use Rattle.symbolic.specs.Factor.{column_at, size_of};
ghost use Rattle.pool.specs.Chains.{chain};
ghost use Rattle.updown.specs.Turns.{before};
ghost use Rattle.updown.specs.SoFar.{IsDefinition};
ghost use Rattle.updown.specs.States.{Planned, SomePlanned};
ghost use Rattle.workspace.specs.Layout.{plan_at};
ghost use Rattle.updown.specs.Views.{ColumnsIn, MultiplicitiesIn};

use crate::{LABEL_WEIGHT, PARENT_WEIGHT, marks};
use book::Row;
use emission::Emission;
use pool::Rec;
use tables::ColumnsView;
use workspace::{CHILDREN, LINKS, MARKS, NEXT, STARTS};

// How far a walk came: whether all fits, the first and the last touched column, their number, the entries, the places of the plan, the free records left.
#[derive(Clone, Copy)]
pub struct Walk {
    pub fits: bool,
    pub first: Row,
    pub last: Row,
    pub count: u32,
    pub entries: u32,
    pub used: usize,
    pub avail: Rec,
}

// A walk before its first column, with free records from avail on.
pub fn walk_from(avail: Rec) -> Walk
    ensures { (result.fits ≡ true) × (result.first.0 ≡ 0) × (result.last.0 ≡ 0) × (result.count ≡ 0) × (result.entries ≡ 0) × (result.used ≡ 0) × (result.avail.0 ≡ avail.0) }
{
    Walk {
        fits: true,
        first: Row(0),
        last: Row(0),
        count: 0,
        entries: 0,
        used: 0,
        avail,
    }
}

// Begins the turn of j after the last touched column: the list of touched columns goes on to j, and j's plan starts at used.
fn begin(work: &mut [u32], m: usize, last: Row, j: Row, used: usize)
    requires { (plan_at m ≤ length work.old) × (m ≤ 4096) × (last.0 ≤ m) × (1 ≤ j.0) × (j.0 ≤ m) × (used ≤ 1048576) }
    ensures { work.new ≡ begun m work.old last.0 j.0 used }
{
    if last.0 != 0 {
        work[NEXT * m + (last.0 - 1) as usize] = j.0;
    }
    work[STARTS * m + (j.0 - 1) as usize] = used as u32;
}

// Takes the next column, the first marked row past the last touched one, and begins its turn; row 0 if there is none.
pub fn take_column(work: &mut [u32], m: usize, flags: usize, last: Row, used: usize) -> Row
    requires { Room m flags work.old × Flagged m flags work.old last.0 × (last.0 ≤ m) × (used ≤ 1048576) }
    ensures { Taken m work.old work.new last.0 used result.0 }
{
    let j = marks::next_marked(work, m, flags, last.0 as usize);
    if j.0 == 0 {
        return j;
    }
    begin(work, m, last, j, used);
    j
}

// Writes the plan of j, whose multiplicities so far are the definition's: from place used on, with free records from avail on.
pub fn write_plan(
    columns: ColumnsView,
    work: &mut [u32],
    m: usize,
    n: usize,
    j: Row,
    used: usize,
    avail: Rec,
) -> Emission
    requires { SomePlanned columns.heads.now columns.rows.now columns.counts.now columns.next.now work.old m n j.0 used avail.0 }
    ensures { (R W : List Column) (adding : Bool) → ColumnsIn columns.entry m R W adding → MultiplicitiesIn columns.entry m R W adding → IsDefinition m R W adding work.old n j.0 → used + size_of (column_at (before adding m R W) j.0) + length (chain columns.entry.next.now avail.0) ≤ length columns.entry.next.now → Planned columns.entry.next.now work.old work.new m R W adding j.0 used avail.0 result }
{
    let h = Rec(columns.heads[(j.0 - 1) as usize]);
    emission::emit(
        columns.rows,
        columns.counts,
        columns.next,
        work,
        m,
        n,
        j,
        h,
        used,
        avail,
    )
}

// The parent of j in the tree of all columns: the new one when adding, the old one when removing.
fn tree_parent(parents: &[u16], j: Row, parent: Row, adding: bool) -> Row
    requires { (1 ≤ j.0) × (j.0 ≤ length parents.now) }
    ensures { result.0 ≡ up_at parents.now j.0 parent.0 adding }
{
    if adding {
        return parent;
    }
    Row(parents[(j.0 - 1) as usize] as u32)
}

// Keeps the new parent of j, and places j's label in the mark of its tree parent, whose queue of children j enters.
fn place_marker(work: &mut [u32], m: usize, flags: usize, j: Row, parent: Row, up: Row)
    requires { Room m flags work.old × (1 ≤ j.0) × (j.0 ≤ m) × (parent.0 ≤ m) × (up.0 ≤ m) × (mark_at m work.old j.0 < 260) }
    ensures { work.new ≡ stepped_up m flags work.old j.0 parent.0 up.0 }
{
    let i = (j.0 - 1) as usize;
    let x = work[MARKS * m + i];
    work[MARKS * m + i] = x + PARENT_WEIGHT * parent.0;
    if up.0 == 0 {
        return;
    }
    marks::mark_parent(work, m, flags, up, x / LABEL_WEIGHT);
    let q = CHILDREN * m + (up.0 - 1) as usize;
    work[LINKS * m + i] = work[q];
    work[q] = j.0;
}

// The first touched column of a walk, with one more.
fn first_of(first: Row, j: Row) -> Row
    ensures { result.0 ≡ pick (eqb first.0 0) j.0 first.0 }
{
    if first.0 == 0 { j } else { first }
}

// The numbers of a walk with one column more.
fn advance(walk: Walk, j: Row, e: Emission) -> Walk
    requires { (walk.count < 4096) × (walk.entries ≤ 16777216) × (e.larger ≤ 4096) }
    ensures { (result.fits ≡ e.fits) × (result.first.0 ≡ pick (eqb walk.first.0 0) j.0 walk.first.0) × (result.last.0 ≡ j.0) × (result.count ≡ walk.count + 1) × (result.entries ≡ walk.entries + e.larger) × (result.used ≡ e.used) × (result.avail.0 ≡ e.avail.0) }
{
    Walk {
        fits: e.fits,
        first: first_of(walk.first, j),
        last: j,
        count: walk.count + 1,
        entries: walk.entries + e.larger as u32,
        used: e.used,
        avail: e.avail,
    }
}

// The numbers of a walk that ends, since no free record is left.
fn stopped(walk: Walk, e: Emission) -> Walk
    ensures { (result.fits ≡ e.fits) × (result.used ≡ e.used) }
{
    Walk {
        fits: e.fits,
        used: e.used,
        avail: e.avail,
        ..walk
    }
}

// One step up: j waits for its parent in the tree, and the walk has one column more. Where free records are too few for j's plan the walk ends.
pub fn step_up(
    parents: &[u16],
    work: &mut [u32],
    m: usize,
    flags: usize,
    j: Row,
    walk: Walk,
    e: Emission,
    adding: bool,
) -> Walk
    requires { e.fits ≡ true → CanStep parents.now work.old m flags j.0 e.parent.0 adding walk.count walk.entries e.larger }
    ensures { SteppedTo parents.now work.old work.new m flags j.0 adding e walk.first.0 walk.count walk.entries result.fits result.first.0 result.last.0 result.count result.entries result.used result.avail.0 }
{
    if e.fits {
        let parent = e.parent;
        let up = tree_parent(parents, j, parent, adding);
        place_marker(work, m, flags, j, parent, up);
        return advance(walk, j, e);
    }
    stopped(walk, e)
}
