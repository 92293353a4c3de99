// B, C and D of Algorithms 3 and 4 (theorem 4.1 and section 5 of document 000): the touched children of j with and without the batch are handled from their
// queues, which are empty then. After each child the multiplicities so far count it anew (specs/SoFar.antt); all functions that handle one give the number of
// touched rows.
ghost use Rattle.std.specs.Prelude.{◌≡◌, ◌≢◌, Bool, List, ℕ, ◌+◌, ◌-◌, ◌≤◌, eqb, length};
ghost use Rattle.lists.specs.Lists.{at};
ghost use Rattle.workspace.specs.Regions.{cell};
ghost use Rattle.updown.specs.Marks.{end_at, other_at, passed_on};
ghost use Rattle.symbolic.specs.Columns.{Column};
ghost use Rattle.updown.specs.Turns.{other_parent};
ghost use Rattle.updown.specs.SoFar.{nobody, children};
ghost use Rattle.updown.specs.Walks.{Turn, TurnTo, TurnDone, SomeTurn, SomeTurnD, AtChild, Handled, SomeWaiting, SomeChild};
ghost use Rattle.workspace.specs.Layout.{next_at, links_at, plan_at};
ghost use Rattle.updown.specs.Views.{ColumnsIn, ParentsIn};

use crate::PARENT_WEIGHT;
use book::Row;
use pool::Rec;
use tables::ColumnsView;
use workspace::{CHILDREN, Kind, LINKS, LOST, MARKS, NEXT, STARTS};

// Where the plan of a column before the last touched one ends: where the plan of the next touched one starts.
fn plan_end(work: &[u32], m: usize, c: Row) -> usize
    requires { (plan_at m ≤ length work.now) × (m ≤ 4096) × (1 ≤ c.0) × (c.0 ≤ m) × (1 ≤ cell work.now (next_at m) (c.0 - 1)) × (cell work.now (next_at m) (c.0 - 1) ≤ m) }
    ensures { result ≡ end_at m work.now c.0 }
{
    let next = Row(work[NEXT * m + (c.0 - 1) as usize]);
    work[STARTS * m + (next.0 - 1) as usize] as usize
}

// The second record of a column.
fn second(heads: &[u32], next: &[u32], c: Row) -> Rec
    requires { (1 ≤ c.0) × (c.0 ≤ length heads.now) × (1 ≤ at heads.now c.0) × (at heads.now c.0 ≤ length next.now) }
    ensures { result.0 ≡ at next.now (at heads.now c.0) }
{
    let h = Rec(heads[(c.0 - 1) as usize]);
    Rec(next[(h.0 - 1) as usize])
}

// The parent of a done column without the batch: its old one when adding, its new one when removing.
fn other_parent(parents: &[u16], work: &[u32], m: usize, c: Row, adding: bool) -> Row
    requires { (plan_at m ≤ length work.now) × (m ≤ 4096) × (1 ≤ c.0) × (c.0 ≤ m) × (length parents.now ≡ m) }
    ensures { result.0 ≡ other_at parents.now work.now m c.0 adding }
{
    let i = (c.0 - 1) as usize;
    if adding {
        return Row(parents[i] as u32);
    }
    Row(work[MARKS * m + i] / PARENT_WEIGHT)
}

// B, for child c of j that is kept: counts the rows that it has with the batch alone, its new rows up when adding, its gone rows down when removing.
fn case_b(work: &mut [u32], m: usize, n: usize, c: Row, adding: bool) -> usize
    requires { SomeWaiting work.old m n c.0 adding }
    ensures { (R W : List Column) (j used : ℕ) (handled : ℕ → Bool) → AtChild work.old m R W adding j used n j c.0 handled → other_parent m R c.0 ≡ j → Handled m R W adding work.old work.new result j c.0 handled }
{
    let from = work[STARTS * m + (c.0 - 1) as usize] as usize;
    let to = plan_end(work, m, c);
    if adding {
        let g = differences::gather_plan(work, m, from, to, Kind::New.number());
        return differences::count_rows(work, m, n, g, true);
    }
    let k = differences::gather_plan(work, m, from, to, Kind::Gone.number());
    differences::count_rows(work, m, n, k, false)
}

// C, for child c that j has with the batch alone: counts its rows with the batch, but for its own, up when adding, down when removing.
fn case_c(columns: ColumnsView, work: &mut [u32], m: usize, n: usize, c: Row, adding: bool) -> usize
    requires { SomeChild columns.heads.now columns.rows.now columns.next.now work.old m n c.0 adding (λ j. j) }
    ensures { (R W : List Column) (j used : ℕ) (handled : ℕ → Bool) → ColumnsIn columns.entry m R W adding → AtChild work.old m R W adding j used n j c.0 handled → other_parent m R c.0 ≢ j → Handled m R W adding work.old work.new result j c.0 handled }
{
    let r = second(columns.heads, columns.next, c);
    if adding {
        let from = work[STARTS * m + (c.0 - 1) as usize] as usize;
        let to = plan_end(work, m, c);
        let g = differences::gather_grown(columns.rows, columns.next, work, m, r, from, to);
        return differences::count_rows(work, m, n, g, true);
    }
    let k = differences::gather_chain(columns.rows, columns.next, work, m, r);
    differences::count_rows(work, m, n, k, false)
}

// B if c is a child of j without the batch too, C if not.
fn case_b_or_c(
    columns: ColumnsView,
    work: &mut [u32],
    m: usize,
    n: usize,
    c: Row,
    kept: bool,
    adding: bool,
) -> usize
    requires { SomeChild columns.heads.now columns.rows.now columns.next.now work.old m n c.0 adding (λ j. j) }
    ensures { (R W : List Column) (j used : ℕ) (handled : ℕ → Bool) → ColumnsIn columns.entry m R W adding → AtChild work.old m R W adding j used n j c.0 handled → kept ≡ eqb (other_parent m R c.0) j → Handled m R W adding work.old work.new result j c.0 handled }
{
    if kept {
        return case_b(work, m, n, c, adding);
    }
    case_c(columns, work, m, n, c, adding)
}

// D, for child c that j has without the batch alone: counts its rows without the batch, but for its own, down when adding, up when removing.
fn lost_child(
    columns: ColumnsView,
    work: &mut [u32],
    m: usize,
    n: usize,
    c: Row,
    adding: bool,
) -> usize
    requires { SomeChild columns.heads.now columns.rows.now columns.next.now work.old m n c.0 adding (λ j. m + j) }
    ensures { (R W : List Column) (j used : ℕ) (handled : ℕ → Bool) → ColumnsIn columns.entry m R W adding → AtChild work.old m R W adding j used n (m + j) c.0 handled → Handled m R W adding work.old work.new result j c.0 handled }
{
    let r = second(columns.heads, columns.next, c);
    if adding {
        let g = differences::gather_chain(columns.rows, columns.next, work, m, r);
        return differences::count_rows(work, m, n, g, false);
    }
    let from = work[STARTS * m + (c.0 - 1) as usize] as usize;
    let to = plan_end(work, m, c);
    let k = differences::gather_pruned(columns.rows, columns.next, work, m, r, from, to);
    differences::count_rows(work, m, n, k, true)
}

// Takes a column out of the queue of its tree parent, and puts it into that of its other parent, if it has one and that is another one. Gives the next in the
// queue.
fn pass_on(work: &mut [u32], m: usize, c: Row, j: Row, other: Row) -> Row
    requires { (plan_at m ≤ length work.old) × (m ≤ 4096) × (1 ≤ c.0) × (c.0 ≤ m) × (other.0 ≤ m) }
    ensures { (result.0 ≡ cell work.old (links_at m) (c.0 - 1)) × (work.new ≡ passed_on m work.old c.0 j.0 other.0) }
{
    let i = LINKS * m + (c.0 - 1) as usize;
    let after = Row(work[i]);
    if other.0 == j.0 || other.0 == 0 {
        work[i] = 0;
        return after;
    }
    let q = LOST * m + (other.0 - 1) as usize;
    work[i] = work[q];
    work[q] = c.0;
    after
}

// B or C for each touched child that j has in the tree of all columns. Their queue is empty then.
pub fn cases_b_and_c(
    columns: ColumnsView,
    work: &mut [u32],
    m: usize,
    n: usize,
    j: Row,
    adding: bool,
) -> usize
    requires { SomeTurn columns.heads.now columns.parents.now columns.rows.now columns.next.now work.old m j.0 n adding }
    ensures { (R W : List Column) (used : ℕ) → ColumnsIn columns.entry m R W adding → ParentsIn columns.entry m R W adding → Turn m R W adding work.old j.0 used n 0 nobody → TurnTo m R W adding work.old work.new j.0 used result (children m R W j.0) }
{
    let head = CHILDREN * m + (j.0 - 1) as usize;
    let mut c = Row(work[head]);
    work[head] = 0;
    let mut l = n;
    while c.0 != 0 {
        let other = other_parent(columns.parents, work, m, c, adding);
        l = case_b_or_c(columns, work, m, l, c, other.0 == j.0, adding);
        c = pass_on(work, m, c, j, other);
    }
    l
}

// D for each touched child that j has without the batch alone. Their queue is empty then.
pub fn case_d(
    columns: ColumnsView,
    work: &mut [u32],
    m: usize,
    n: usize,
    j: Row,
    adding: bool,
) -> usize
    requires { SomeTurnD columns.heads.now columns.rows.now columns.next.now work.old m j.0 n adding }
    ensures { (R W : List Column) (used : ℕ) → ColumnsIn columns.entry m R W adding → Turn m R W adding work.old j.0 used n 0 (children m R W j.0) → TurnDone m R W adding work.old work.new j.0 used result }
{
    let head = LOST * m + (j.0 - 1) as usize;
    let mut c = Row(work[head]);
    work[head] = 0;
    let mut l = n;
    while c.0 != 0 {
        l = lost_child(columns, work, m, l, c, adding);
        let i = LINKS * m + (c.0 - 1) as usize;
        c = Row(work[i]);
        work[i] = 0;
    }
    l
}
