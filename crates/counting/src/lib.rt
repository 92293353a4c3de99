// Counting what the definition gives for a column of L, in the work table: the booked ids that count at a minute listed by smallest row, the children of a column listed, and the
// rows that the diagonal, the children and the columns that start there bring, one more in the counter of each. The counters are the first m places;
// each function that counts gives how many of them left 0, so that its caller knows the length of the column's chain before it walks it.
#![tactic(auto)]

ghost use Rattle.std.specs.Prelude.{◌≡◌, ◌+◌, ◌-◌, ◌*◌, length};
ghost use Rattle.workspace.specs.Regions.{region};
ghost use Rattle.book.specs.Tally.{tallied, filled, booked_rows};
ghost use Rattle.counting.specs.Counting.{
  linked_in,
  CanLink,
  CanStart,
  StartsInside,
  CanList,
  Listed,
  gathered,
  CanTally,
};
ghost use Rattle.counting.specs.Given.{
  Counted,
  children_in,
  stashed,
  CanTallyChildren,
  starting_in,
  CanTallyColumns,
  given_in,
  CanTallyAll,
};

use book::{BookView, Id, Row};

// Puts number i, an id or a column, at the front of the list of row v, heads from place a on and nexts from place b on; row 0 has no list.
pub fn link(work: &mut [u32], a: usize, b: usize, row: Row, i: u32)
    requires { CanLink work.old a b row.0 i }
    ensures { work.new ≡ linked_in work.old a b row.0 i }
{
    let v = row.0;
    if v == 0 {
        return;
    }
    let h = a + (v - 1) as usize;
    let first = work[h];
    work[b + (i - 1) as usize] = first;
    work[h] = i;
}

// The row where the column of an id starts at a minute: its smallest, or 0 where it has none or is outside its window.
fn start_at(book_heads: &[u32], book_rows: &[u16], windows: &[u32], minute: u32, id: Id) -> Row
    requires { CanStart book_heads.now book_rows.now windows.now id.0 }
    ensures { StartsInside book_heads.now book_rows.now windows.now minute id.0 result.0 }
{
    let first = book::smallest_row(book_heads, book_rows, id);
    if windows::counts_at(windows, book_heads.len(), minute, id) {
        first
    } else {
        Row(0)
    }
}

// Lists the booked ids that count at a minute by their smallest rows, which are 1 to m.
pub fn link_columns(
    book_heads: &[u32],
    book_rows: &[u16],
    windows: &[u32],
    work: &mut [u32],
    minute: u32,
    a: usize,
    m: usize,
    b: usize,
)
    requires { CanList book_heads.now book_rows.now windows.now work.old minute a m b }
    ensures { Listed book_heads.now book_rows.now windows.now work.old work.new minute a m b }
{
    for id in 1..book_heads.len() as u32 + 1 {
        let first = start_at(book_heads, book_rows, windows, minute, Id(id));
        link(work, a, b, first, id);
    }
}

// Counts the rows at places a to e - 1, one more in the counter of each. Gives how many counters left 0.
fn tally(work: &mut [u32], a: usize, e: usize) -> u32
    requires { CanTally work.old a e }
    ensures counted { work.new ≡ tallied work.old (region work.old a (e - a)) }
    ensures raised { result + filled work.old ≡ filled work.new }
{
    let mut size: u32 = 0;
    for k in a..e {
        let i = (work[k] - 1) as usize;
        let v = work[i];
        work[i] = v + 1;
        if v == 0 {
            size += 1;
        }
    }
    size
}

// Counts the rows of each child of column j but the child's first, out of the stash. Gives how many counters left 0.
fn tally_children(work: &mut [u32], m: usize, f: usize, j: Row) -> u32
    requires { CanTallyChildren work.old m f j.0 }
    ensures { Counted m work.old work.new (gathered (stashed work.old m f) (children_in work.old m j.0)) result }
{
    let column = j.0;
    let stash = 8 * m + f;
    let mut size: u32 = 0;
    let mut c = work[m + (column - 1) as usize];
    while c != 0 {
        let k = (c - 1) as usize;
        let a = work[4 * m + k];
        let e = work[4 * m + c as usize];
        let more = tally(work, stash + a as usize + 1, stash + e as usize);
        size += more;
        c = work[2 * m + k];
    }
    size
}

// Counts the rows of each book column that is listed at row j. Gives how many counters left 0.
fn tally_columns(book: BookView, work: &mut [u32], m: usize, f: usize, j: Row) -> u32
    requires { CanTallyColumns book.heads.now book.rows.now book.next.now work.old m f j.0 }
    ensures { Counted m work.old work.new (gathered (booked_rows book.entry.heads.now book.entry.rows.now book.entry.next.now) (starting_in work.old m f (length book.entry.heads.now) (length book.entry.next.now) j.0)) result }
{
    let column = j.0;
    let nexts = 8 * m + 4 * f + 1024 + book.next.len();
    let mut size: u32 = 0;
    let mut i = work[3 * m + (column - 1) as usize];
    while i != 0 {
        let more = book.count_rows(work, Id(i));
        size += more;
        i = work[nexts + (i - 1) as usize];
    }
    size
}

// Counts all that the definition gives for column j: 1 on the diagonal, its children's rows, the rows of the columns that start there.
// Gives how many counters are not 0 then.
pub fn tally_all(book: BookView, work: &mut [u32], m: usize, f: usize, j: Row) -> u32
    requires { CanTallyAll book.heads.now book.rows.now book.next.now work.old m f j.0 }
    ensures { Counted m work.old work.new (given_in book.entry.heads.now book.entry.rows.now book.entry.next.now work.old m f j.0) result }
{
    let column = j.0;
    work[(column - 1) as usize] = 1;
    let children = tally_children(work, m, f, j);
    let columns = tally_columns(book, work, m, f, j);
    1 + children + columns
}
