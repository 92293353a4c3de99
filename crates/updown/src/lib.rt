// The plan of a batch: Algorithm 3 (adding, along the new tree) and Algorithm 4 (removing, along the old tree) of document 000, as differences. Reads the
// tables and writes only the work table; what it leaves there is each touched column's planned entries, label and new parent.
// Both walk the tree of all columns, those of the batch among them: in it, a touched column stands in the queue of its parent, and, once that is done and
// where its parent without the batch is another one, in that one's queue of lost children (removing: gained).
#![tactic(auto)]

ghost use Rattle.std.specs.Prelude.{List};
ghost use Rattle.tables.specs.Lent.{columns_viewed};
ghost use Rattle.symbolic.specs.Columns.{Column};
ghost use Rattle.book.specs.Views.{book_viewed};
ghost use Rattle.updown.specs.Entries.{CanAdd, SomeAdd, CanEnter, SomeEnter, AddPlanned, CanRemove, SomeRemove, RemovePlanned};
ghost use Rattle.updown.specs.Starts.{CanEnd, Ended};

mod children;
pub mod filling;
mod marks;
mod starts;
mod turns;
mod walks;

use crate::turns::Walk;
use book::{BookView, Row};
use pool::Rec;
use tables::ColumnsView;
use workspace::{FLAGS, PLAN, RECORD_PLACES};

// A mark: a bit where a batch column starts, the label by one weight, the new parent by another.
pub const START_BIT: u32 = 2;

pub const LABEL_WEIGHT: u32 = 4;

pub const PARENT_WEIGHT: u32 = 262144;

// What was planned: whether it fits, the first touched column, their number, the batch's entries, and the places of the plan.
#[derive(Clone, Copy)]
pub struct Plan {
    pub fits: bool,
    pub first: Row,
    pub count: u32,
    pub entries: u32,
    pub used: u32,
}

// The plan that a walk leaves: the flags are cleared, and where it stopped all else that it wrote.
fn plan_of(work: &mut [u32], m: usize, flags: usize, walk: Walk) -> Plan
    requires { CanEnd m flags work.old walk.used }
    ensures { Ended m flags work.old work.new walk.fits walk.first.0 walk.count walk.entries walk.used result.fits result.first.0 result.count result.entries result.used }
{
    workspace::clear(work, flags, FLAGS);
    if walk.fits {
        return Plan {
            fits: true,
            first: walk.first,
            count: walk.count,
            entries: walk.entries,
            used: walk.used as u32,
        };
    }
    workspace::clear(work, 0, PLAN * m + walk.used);
    Plan {
        fits: false,
        first: Row(0),
        count: 0,
        entries: 0,
        used: 0,
    }
}

// Plans an addition: of the columns whose rows stand one after another in row_list, row_counts[k] of them each, beside the tables' columns; starts[k] is the
// smallest row of each, 0 for one that counts no row. Where the records are too few the work table is as lent.
pub fn plan_add(
    columns: ColumnsView,
    work: &mut [u32],
    row_counts: &[u32],
    row_list: &[u32],
    starts: &[u32],
    free: Rec,
) -> Plan
    requires { SomeAdd (columns_viewed columns free.0) starts.now row_counts.now row_list.now work.old }
    ensures { (R W : List Column) → CanAdd (columns_viewed columns.entry free.0) starts.now row_counts.now row_list.now work.old R W → AddPlanned (columns_viewed columns.entry free.0) R W work.old work.new result.fits result.first.0 result.count result.entries result.used }
{
    let m = columns.heads.len();
    let flags = PLAN * m + RECORD_PLACES * columns.next.len();
    starts::mark_starts(work, starts, m, flags);
    let walk = walks::walk_add(columns, work, row_counts, row_list, starts, m, flags, free);
    plan_of(work, m, flags, walk)
}

// Plans an addition of booked columns: of those that the book has under ids, with the starts, beside the tables' columns. Where the records are too few the work
// table is as lent.
pub fn plan_enter(
    columns: ColumnsView,
    book: BookView,
    work: &mut [u32],
    ids: &[u32],
    starts: &[u32],
    free: Rec,
) -> Plan
    requires { SomeEnter (columns_viewed columns free.0) (book_viewed book 0) starts.now ids.now work.old }
    ensures { (R W : List Column) → CanEnter (columns_viewed columns.entry free.0) (book_viewed book.entry 0) starts.now ids.now work.old R W → AddPlanned (columns_viewed columns.entry free.0) R W work.old work.new result.fits result.first.0 result.count result.entries result.used }
{
    let m = columns.heads.len();
    let flags = PLAN * m + RECORD_PLACES * columns.next.len();
    starts::mark_starts(work, starts, m, flags);
    let walk = walks::walk_booked(columns, book, work, ids, starts, m, flags, free, true);
    plan_of(work, m, flags, walk)
}

// Plans a removal: of the columns that the book has under ids, with the starts, from the tables' columns. It always fits.
pub fn plan_remove(
    columns: ColumnsView,
    book: BookView,
    work: &mut [u32],
    ids: &[u32],
    starts: &[u32],
) -> Plan
    requires { SomeRemove (columns_viewed columns 0) (book_viewed book 0) starts.now ids.now work.old }
    ensures { (R W : List Column) → CanRemove (columns_viewed columns.entry 0) (book_viewed book.entry 0) starts.now ids.now work.old R W → RemovePlanned (columns_viewed columns.entry 0) R W work.old work.new result.fits result.first.0 result.count result.entries result.used }
{
    let m = columns.heads.len();
    let flags = PLAN * m + RECORD_PLACES * columns.next.len();
    starts::mark_starts(work, starts, m, flags);
    let walk = walks::walk_booked(columns, book, work, ids, starts, m, flags, Rec(0), false);
    plan_of(work, m, flags, walk)
}
