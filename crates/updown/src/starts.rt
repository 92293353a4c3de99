// Where the columns of a batch start, as lent by position: their starts are marked, and A of Algorithms 3 and 4 counts the batch columns that start at j. A
// column that counts no row starts at row 0, that is nowhere.
ghost use Rattle.std.specs.Prelude.{◌≡◌, true, List, ℕ, ◌%◌, ◌≤◌, length};
ghost use Rattle.updown.specs.Marks.{mark_at};
ghost use Rattle.symbolic.specs.Columns.{Column};
ghost use Rattle.updown.specs.States.{start_of};
ghost use Rattle.updown.specs.Entries.{Listed};
ghost use Rattle.updown.specs.Starts.{StartsTo, CanMark, SomeMark, CanStart, Started, SomeStart, BookHolds, SomeStartBooked};
ghost use Rattle.workspace.specs.Layout.{starts_at};
ghost use Rattle.updown.specs.Plans.{start_bit, label_weight};

use crate::{LABEL_WEIGHT, START_BIT, marks};
use book::{BookView, Id, Row};
use workspace::{BUFFER, MARKS};

// Marks where the columns of a batch start, each with its position.
pub fn mark_starts(work: &mut [u32], starts: &[u32], m: usize, flags: usize)
    requires { SomeMark starts.now m flags work.old }
    ensures { (W : List Column) → CanMark starts.now m flags work.old W → StartsTo m flags W work.old work.new (length W) }
{
    for (k, &start) in starts.iter().enumerate() {
        marks::mark_start(work, m, flags, Row(start), (k + 1) as u32);
    }
}

// Counts up the listed columns that start at j, and gives the number of touched rows.
fn count_listed(
    work: &mut [u32],
    row_counts: &[u32],
    row_list: &[u32],
    starts: &[u32],
    m: usize,
    j: Row,
) -> usize
    requires { SomeStart starts.now row_counts.now row_list.now m work.old j.0 }
    ensures { (R W : List Column) → Listed starts.now row_counts.now row_list.now W → CanStart m R W true work.old j.0 → Started m R W true work.old work.new result j.0 }
{
    let mut n: usize = 0;
    let mut at: usize = 0;
    for (k, &count) in row_counts.iter().enumerate() {
        let end = at + count as usize;
        if starts[k] == j.0 {
            let g = differences::gather_rows(work, &row_list[at..end], m);
            n = differences::count_rows(work, m, n, g, true);
        }
        at = end;
    }
    n
}

// Counts the booked columns that start at j, up when adding and down when removing, and gives the number of touched rows.
fn count_booked(
    book: BookView,
    work: &mut [u32],
    ids: &[u32],
    starts: &[u32],
    m: usize,
    j: Row,
    adding: bool,
) -> usize
    requires { SomeStartBooked book.heads.now book.rows.now book.next.now starts.now ids.now m work.old j.0 adding }
    ensures { (R W : List Column) → BookHolds book.entry.heads.now book.entry.rows.now book.entry.next.now starts.now ids.now m W → CanStart m R W adding work.old j.0 → Started m R W adding work.old work.new result j.0 }
{
    let mut n: usize = 0;
    for (k, &id) in ids.iter().enumerate() {
        if starts[k] == j.0 {
            let a = BUFFER * m;
            let e = MARKS * m;
            let g = book.copy_rows(&mut work[a..e], Id(id));
            n = differences::count_rows(work, m, n, g as usize, adding);
        }
    }
    n
}

// A: handles the listed columns, if one starts at j, and gives the number of touched rows.
pub fn case_a_listed(
    work: &mut [u32],
    row_counts: &[u32],
    row_list: &[u32],
    starts: &[u32],
    m: usize,
    j: Row,
) -> usize
    requires { SomeStart starts.now row_counts.now row_list.now m work.old j.0 × (starts_at m ≤ length work.old) }
    ensures { (R W : List Column) → Listed starts.now row_counts.now row_list.now W → CanStart m R W true work.old j.0 → ((i : ℕ) → 1 ≤ i → i ≤ length W → start_of W i ≡ j.0 → mark_at m work.old j.0 % label_weight ≡ start_bit) → Started m R W true work.old work.new result j.0 }
{
    if work[MARKS * m + (j.0 - 1) as usize] % LABEL_WEIGHT == START_BIT {
        return count_listed(work, row_counts, row_list, starts, m, j);
    }
    0
}

// A: handles the booked columns, if one starts at j, and gives the number of touched rows.
pub fn case_a_booked(
    book: BookView,
    work: &mut [u32],
    ids: &[u32],
    starts: &[u32],
    m: usize,
    j: Row,
    adding: bool,
) -> usize
    requires { SomeStartBooked book.heads.now book.rows.now book.next.now starts.now ids.now m work.old j.0 adding × (starts_at m ≤ length work.old) }
    ensures { (R W : List Column) → BookHolds book.entry.heads.now book.entry.rows.now book.entry.next.now starts.now ids.now m W → CanStart m R W adding work.old j.0 → ((i : ℕ) → 1 ≤ i → i ≤ length W → start_of W i ≡ j.0 → mark_at m work.old j.0 % label_weight ≡ start_bit) → Started m R W adding work.old work.new result j.0 }
{
    if work[MARKS * m + (j.0 - 1) as usize] % LABEL_WEIGHT == START_BIT {
        return count_booked(book, work, ids, starts, m, j, adding);
    }
    0
}
