// A group of at most 64 booked columns leaves the stored columns of L or enters them; all columns that count at one minute and not at another do, group by group.
// The columns on the paths are gathered with their sizes before they change.
ghost use Rattle.std.specs.Prelude.{◌≡◌, is_some, unwrap_or, List, ◌++◌, eqb, length};
ghost use Rattle.symbolic.specs.Columns.{Column};
ghost use Rattle.symbolic.specs.Factor.{factor_of};
ghost use Rattle.symbolic.specs.Batch.{is_touched};
ghost use Rattle.tables.specs.Lent.{columns_lent, SameColumns};
ghost use Rattle.book.specs.Views.{book_viewed};
ghost use Rattle.updown.specs.Entries.{CanAddBooked, SomeAddBooked};
ghost use Rattle.windows.specs.Chosen.{CanCollect};
ghost use Rattle.exchange.specs.Stages.{group_touches, CanLeave, SomeLeave, GroupDone, GroupEntered, moving_ids, CanLeaveAll, SomeLeaveAll, Moved, CanEnterAll, SomeEnterAll, EnteredAll};

use book::{BookView, Id};
use pool::Rec;
use tables::ColumnsMut;
use updown::filling;
use workspace::PLAN;

// Plans that the columns under some ids leave, gathers the touched columns, and writes the plan. Gives the free head.
pub fn leave_group(
    columns: &mut ColumnsMut,
    book: BookView,
    work: &mut [u32],
    ids: &[u32],
    free: Rec,
) -> Rec
    requires { SomeLeave (columns_lent columns.old free.0) (book_viewed book 0) ids.now work.old }
    ensures same { SameColumns columns.old columns.new }
    ensures done { (N W : List Column) → CanLeave (columns_lent columns.old free.0) (book_viewed book.entry 0) ids.now work.old N W → GroupDone (length columns.old.heads.now) (length columns.old.next.now) (columns_lent columns.old free.0) (group_touches (length columns.old.heads.now) N W) N (columns_lent columns.new result.0) work.old work.new }
{
    let k = ids.len();
    let mut starts = [0u32; 64];
    filling::booked_starts(book.heads, book.rows, ids, &mut starts[..k]);
    let m = columns.heads.len();
    let f = columns.next.len();
    let view = columns.view();
    let plan = updown::plan_remove(view, book, work, ids, &starts[..k]);
    commit::gather(
        view.heads,
        view.next,
        work,
        PLAN * m + f + 2 * f,
        plan.first,
    );
    commit::write_plan(columns, work, plan.first, plan.used, free)
}

// Plans that the columns under some ids enter and, where that fits, gathers the touched columns and writes the plan. Gives the free head, or none where it does not
// fit: then nothing has changed.
pub fn enter_group(
    columns: &mut ColumnsMut,
    book: BookView,
    work: &mut [u32],
    ids: &[u32],
    free: Rec,
) -> Option<Rec>
    requires { SomeAddBooked (columns_lent columns.old free.0) (book_viewed book 0) ids.now work.old }
    ensures same { SameColumns columns.old columns.new }
    ensures done { (N W : List Column) → CanAddBooked (columns_lent columns.old free.0) (book_viewed book.entry 0) ids.now work.old N W → GroupEntered (length columns.old.heads.now) (length columns.old.next.now) (columns_lent columns.old free.0) N W (columns_lent columns.new (unwrap_or result free).0) work.old work.new (is_some result) }
{
    let k = ids.len();
    let mut starts = [0u32; 64];
    filling::booked_starts(book.heads, book.rows, ids, &mut starts[..k]);
    let m = columns.heads.len();
    let f = columns.next.len();
    let view = columns.view();
    let plan = updown::plan_enter(view, book, work, ids, &starts[..k], free);
    if !plan.fits {
        return None;
    }
    commit::gather(
        view.heads,
        view.next,
        work,
        PLAN * m + f + 2 * f,
        plan.first,
    );
    Some(commit::write_plan(columns, work, plan.first, plan.used, free))
}

// Whether no booked id counts at one minute and not at another.
pub fn none_moves(book_heads: &[u32], windows: &[u32], minute: u32, other: u32) -> bool
    requires { CanCollect book_heads.now windows.now 1 }
    ensures { result ≡ eqb (length (moving_ids book_heads.now windows.now minute other)) 0 }
{
    let mut first = [0u32; 1];
    let g = windows::collect(book_heads, windows, minute, other, Id(1), &mut first);
    g.count == 0
}

// The columns that count at one minute and not at another leave, group by group. Gives the free head.
pub fn leave_all(
    columns: &mut ColumnsMut,
    book: BookView,
    windows: &[u32],
    work: &mut [u32],
    minute: u32,
    other: u32,
    free: Rec,
) -> Rec
    requires { SomeLeaveAll (columns_lent columns.old free.0) (book_viewed book 0) windows.now minute other work.old }
    ensures same { SameColumns columns.old columns.new }
    ensures done { (R A : List Column) → CanLeaveAll (columns_lent columns.old free.0) (book_viewed book.entry 0) (moving_ids book.entry.heads.now windows.now minute other) work.old R A → Moved (length columns.old.heads.now) (length columns.old.next.now) R (columns_lent columns.old free.0) (is_touched (factor_of (length columns.old.heads.now) (R ++ A)) A) R (columns_lent columns.new result.0) work.old work.new }
{
    let mut i = Id(1);
    let mut z = free;
    loop {
        let mut group = [0u32; 64];
        let g = windows::collect(book.heads, windows, minute, other, i, &mut group);
        let k = g.count;
        if k == 0 {
            return z;
        }
        z = leave_group(columns, book, work, &group[..k], z);
        i = g.next;
    }
}

// The columns that count at one minute and not at another enter, group by group, up to the first group that does not fit. Gives the free head, or none where one
// does not.
pub fn enter_all(
    columns: &mut ColumnsMut,
    book: BookView,
    windows: &[u32],
    work: &mut [u32],
    minute: u32,
    other: u32,
    free: Rec,
) -> Option<Rec>
    requires { SomeEnterAll (columns_lent columns.old free.0) (book_viewed book 0) windows.now minute other work.old }
    ensures same { SameColumns columns.old columns.new }
    ensures done { (R B : List Column) → CanEnterAll (columns_lent columns.old free.0) (book_viewed book.entry 0) (moving_ids book.entry.heads.now windows.now minute other) work.old R B → EnteredAll (length columns.old.heads.now) (length columns.old.next.now) R B (columns_lent columns.old free.0) (columns_lent columns.new (unwrap_or result free).0) work.old work.new (is_some result) }
{
    let mut i = Id(1);
    let mut z = free;
    loop {
        let mut group = [0u32; 64];
        let g = windows::collect(book.heads, windows, minute, other, i, &mut group);
        let k = g.count;
        if k == 0 {
            return Some(z);
        }
        z = enter_group(columns, book, work, &group[..k], z)?;
        i = g.next;
    }
}
