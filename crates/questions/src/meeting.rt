// The columns that meet a row: those whose pattern holds it. They are marked in the work table from row i down. A column whose parent is i holds i; one whose parent
// lies below i and holds i may hold it, and its chain is searched, up to row i; no other below i does.
ghost use Rattle.std.specs.Prelude.{◌≡◌, ◌≤◌, ◌<◌, length};
ghost use Rattle.lists.specs.Lists.{over};
ghost use Rattle.symbolic.specs.Columns.{Register};
ghost use Rattle.symbolic.specs.Factor.{factor_for, in_pattern};
ghost use Rattle.workspace.specs.Regions.{OnlyIn};
ghost use Rattle.calls.specs.Calls.Question.{ask_meets};
ghost use Rattle.questions.specs.Asked.{RepliesAt, Leaves};
ghost use Rattle.questions.specs.Meeting.{TreeFor, CanClimb, CanMeet, MarkedAbove, marked_to};

use crate::Reply;
use book::Row;
use early_refusals::Refusal;
use pool::Rec;

// Whether column j, below row i, holds it, where the columns above j are marked.
fn holds_row(
    heads: &[u32],
    parents: &[u16],
    rows: &[u16],
    counts: &[u16],
    next: &[u32],
    work: &[u32],
    j: Row,
    i: Row,
) -> bool
    requires { CanClimb heads.now parents.now rows.now counts.now next.now × (1 ≤ j.0) × (j.0 < i.0) × (i.0 ≤ length heads.now) × (length heads.now ≤ length work.now) }
    ensures { (r : Register) → TreeFor heads.now parents.now rows.now counts.now next.now r → MarkedAbove r work.now i.0 j.0 → result ≡ in_pattern (factor_for r) i.0 j.0 }
{
    let row = i.0;
    let k = (j.0 - 1) as usize;
    let p = parents[k] as u32;
    if p == row {
        return true;
    }
    if p == 0 {
        return false;
    }
    if row < p {
        return false;
    }
    if work[(p - 1) as usize] == 0 {
        return false;
    }
    let n = columns::count_at(rows, counts, next, Rec(heads[k]), i);
    n != 0
}

// Marks the columns that hold row i, and gives their number.
fn mark(
    heads: &[u32],
    parents: &[u16],
    rows: &[u16],
    counts: &[u16],
    next: &[u32],
    work: &mut [u32],
    i: Row,
) -> usize
    requires { CanMeet heads.now parents.now rows.now counts.now next.now work.old × (1 ≤ i.0) × (i.0 ≤ length heads.now) }
    ensures number { result ≡ length (marked_to work.new i.0) }
    ensures marked { (r : Register) → TreeFor heads.now parents.now rows.now counts.now next.now r → MarkedAbove r work.new i.0 0 }
    ensures only { OnlyIn 0 i.0 work.old work.new }
{
    let top = i.0;
    work[(top - 1) as usize] = 1;
    let mut n: usize = 1;
    let mut j = top - 1;
    while j != 0 {
        if holds_row(heads, parents, rows, counts, next, work, Row(j), i) {
            work[(j - 1) as usize] = 1;
            n += 1;
            j -= 1;
        } else {
            j -= 1;
        }
    }
    n
}

// Writes the marked columns of 1 to i, which fit, to the front of list.
fn copy_marked(work: &[u32], list: &mut [u32], i: Row)
    requires { (i.0 ≤ length work.now) × (i.0 ≤ 4096) × (length (marked_to work.now i.0) ≤ length list.old) }
    ensures { list.new ≡ over (marked_to work.now i.0) list.old }
{
    let top = i.0;
    let mut k: usize = 0;
    for j in 0..top {
        let mark = work[j as usize];
        if mark != 0 {
            list[k] = j + 1;
            k += 1;
        }
    }
}

// The columns whose pattern holds row i, ascending, written from a place of the list on; 17 outside 1 to m, 18 where the list ends before they do. The marks are
// cleared again.
pub fn meets(
    heads: &[u32],
    parents: &[u16],
    rows: &[u16],
    counts: &[u16],
    next: &[u32],
    work: &mut [u32],
    list: &mut [u32],
    i: Row,
    place: usize,
) -> Reply
    requires { CanMeet heads.now parents.now rows.now counts.now next.now work.old }
    ensures reply { RepliesAt (TreeFor heads.now parents.now rows.now counts.now next.now) (ask_meets i.0) place list.old result }
    ensures written { Leaves (TreeFor heads.now parents.now rows.now counts.now next.now) (ask_meets i.0) place list.old list.new }
    ensures kept { work.new ≡ work.old }
{
    let m = heads.len() as u32;
    if question_refusals::row_outside(m, i.0) {
        return Reply::refused(Refusal::AskedOutside);
    }
    let marks = i.0 as usize;
    let n = mark(heads, parents, rows, counts, next, work, i);
    if question_refusals::room_outside(list.len(), place, n) {
        workspace::clear(work, 0, marks);
        return Reply::refused(Refusal::ListEnds);
    }
    let at = place;
    copy_marked(work, &mut list[at..], i);
    workspace::clear(work, 0, marks);
    Reply::of(n as u32)
}
