// Questions on sound stored columns: the next row, a parent, a path, a column; in meeting.rt the columns that meet a row, in ancestors.rt the common row of
// some rows. A promise is for every register whose columns, or parents, or both, the tables hold.
#![tactic(auto)]

ghost use Rattle.std.specs.Prelude.{◌≡◌, ◌≤◌, length};
ghost use Rattle.lists.specs.Lists.{over};
ghost use Rattle.symbolic.specs.Columns.{Register};
ghost use Rattle.calls.specs.Questions.{path_list};
ghost use Rattle.calls.specs.Calls.Question.{ask_next_row, ask_parent, ask_path, ask_column};
ghost use Rattle.early_refusals.specs.Refusal.{number_of};
ghost use Rattle.questions.specs.Asked.{ColumnsFor, ParentsFor, CanAsk, CanFollow, RepliesAt, Replies, Finds, Leaves};

pub mod ancestors;
pub mod meeting;

use book::Row;
use early_refusals::Refusal;
use pool::Rec;

// What a question answers: its number, 0 when accepted, and its value, 0 when refused.
#[repr(C)]
#[derive(Clone, Copy)]
pub struct Reply {
    pub number: u32,
    pub value: u32,
}

impl Reply {
    // A question is refused.
    pub fn refused(reason: Refusal) -> Reply
        ensures { result ≡ record { number = number_of reason; value = 0 } }
    {
        Reply {
            number: reason.number(),
            value: 0,
        }
    }

    // A question is accepted, with its value.
    pub fn of(value: u32) -> Reply
        ensures { result ≡ record { number = 0; value = value } }
    {
        Reply { number: 0, value }
    }
}

// What the question for the next row answers: its number, 0 when accepted; row and multiplicity, both 0 when refused or when the column ends before;
// the number tells these apart.
#[repr(C)]
#[derive(Clone, Copy)]
pub struct Found {
    pub number: u32,
    pub row: u32,
    pub multiplicity: u32,
}

impl Found {
    // A question is refused.
    pub fn refused(reason: Refusal) -> Found
        ensures { result ≡ record { number = number_of reason; row = 0; multiplicity = 0 } }
    {
        Found {
            number: reason.number(),
            row: 0,
            multiplicity: 0,
        }
    }

    // A question is accepted, with its row and multiplicity.
    fn of(row: u32, multiplicity: u32) -> Found
        ensures { result ≡ record { number = 0; row = row; multiplicity = multiplicity } }
    {
        Found {
            number: 0,
            row,
            multiplicity,
        }
    }
}

// The first row at or above i in column j and its multiplicity, both 0 if the column ends before; 17 for a row or column outside 1 to m.
pub fn next_row(heads: &[u32], rows: &[u16], counts: &[u16], next: &[u32], i: Row, j: Row) -> Found
    requires { CanAsk heads.now rows.now counts.now next.now }
    ensures { Finds (ColumnsFor heads.now rows.now counts.now next.now) (ask_next_row i.0 j.0) result }
{
    let m = heads.len() as u32;
    if question_refusals::row_outside(m, i.0) {
        return Found::refused(Refusal::AskedOutside);
    }
    let k = j.0;
    if question_refusals::row_outside(m, k) {
        return Found::refused(Refusal::AskedOutside);
    }
    let head = Rec(heads[(k - 1) as usize]);
    let first = columns::first_at(rows, next, head, i);
    let r = first.0;
    if r == 0 {
        return Found::of(0, 0);
    }
    let at = (r - 1) as usize;
    Found::of(rows[at] as u32, counts[at] as u32)
}

// The parent of j, 0 for a root; 17 outside 1 to m.
pub fn parent(parents: &[u16], j: Row) -> Reply
    requires { CanFollow parents.now }
    ensures { Replies (ParentsFor parents.now) (ask_parent j.0) result }
{
    let m = parents.len() as u32;
    let k = j.0;
    if question_refusals::row_outside(m, k) {
        return Reply::refused(Refusal::AskedOutside);
    }
    let p = parents[(k - 1) as usize] as u32;
    Reply::of(p)
}

// The number of rows on the path of j.
fn path_length(parents: &[u16], j: Row) -> usize
    requires { CanFollow parents.now × (1 ≤ j.0) × (j.0 ≤ length parents.now) }
    ensures { (r : Register) → ParentsFor parents.now r → result ≡ length (path_list r j.0) }
{
    let mut q = j.0;
    let mut n: usize = 0;
    while q != 0 {
        q = parents[(q - 1) as usize] as u32;
        n += 1;
    }
    n
}

// Writes the path of j, which fits, to the front of list.
fn copy_path(parents: &[u16], list: &mut [u32], j: Row)
    requires { CanFollow parents.now × (1 ≤ j.0) × (j.0 ≤ length parents.now) × ((r : Register) → ParentsFor parents.now r → length (path_list r j.0) ≤ length list.old) }
    ensures { (r : Register) → ParentsFor parents.now r → list.new ≡ over (path_list r j.0) list.old }
{
    let mut q = j.0;
    let mut k: usize = 0;
    while q != 0 {
        list[k] = q;
        q = parents[(q - 1) as usize] as u32;
        k += 1;
    }
}

// The path of j, written from a place of the list on; 17 outside 1 to m, 18 where the list ends before the path does.
pub fn path(parents: &[u16], list: &mut [u32], j: Row, place: usize) -> Reply
    requires { CanFollow parents.now }
    ensures reply { RepliesAt (ParentsFor parents.now) (ask_path j.0) place list.old result }
    ensures written { Leaves (ParentsFor parents.now) (ask_path j.0) place list.old list.new }
{
    let m = parents.len() as u32;
    if question_refusals::row_outside(m, j.0) {
        return Reply::refused(Refusal::AskedOutside);
    }
    let n = path_length(parents, j);
    if question_refusals::room_outside(list.len(), place, n) {
        return Reply::refused(Refusal::ListEnds);
    }
    let at = place;
    copy_path(parents, &mut list[at..], j);
    Reply::of(n as u32)
}

// Column j, row then multiplicity, written from a place of the list on; 17 outside 1 to m, 18 where the list ends before the column does.
pub fn column(
    heads: &[u32],
    rows: &[u16],
    counts: &[u16],
    next: &[u32],
    list: &mut [u32],
    j: Row,
    place: usize,
) -> Reply
    requires { CanAsk heads.now rows.now counts.now next.now }
    ensures reply { RepliesAt (ColumnsFor heads.now rows.now counts.now next.now) (ask_column j.0) place list.old result }
    ensures written { Leaves (ColumnsFor heads.now rows.now counts.now next.now) (ask_column j.0) place list.old list.new }
{
    let m = heads.len() as u32;
    let k = j.0;
    if question_refusals::row_outside(m, k) {
        return Reply::refused(Refusal::AskedOutside);
    }
    let head = Rec(heads[(k - 1) as usize]);
    let n = pool::count(next, head, m);
    let places = 2 * n as usize;
    if question_refusals::room_outside(list.len(), place, places) {
        return Reply::refused(Refusal::ListEnds);
    }
    let at = place;
    columns::copy_column(rows, counts, next, &mut list[at..], head);
    Reply::of(n)
}
