// The book of columns by id: a head for each id, chains of row and next, one free chain. In order: opening; reading the tables through, for any
// contents; questions; a column added or removed, which leaves every other id's column and a sound book.
// Other crates know the book by these promises alone.
#![tactic(auto)]

ghost use Rattle.std.specs.Prelude.{◌≡◌, ◌≢◌, ◌+◌, ◌≤◌, ◌<◌, leb, length};
ghost use Rattle.lists.specs.Lists.{over};
ghost use Rattle.pool.specs.Chains.{chain, Linked};
ghost use Rattle.book.specs.Book.{book_of, is_booked, column_for, is_sound};
ghost use Rattle.book.specs.Views.{book_viewed};
ghost use Rattle.book.specs.Records.{HasChain, CanWrite, RowsWritten, Cleared};
ghost use Rattle.book.specs.Walks.{CanWalk, ColumnWalked, CanReadThrough, ColumnsWalked};
ghost use Rattle.book.specs.Entries.{opened, CanAdd, Added, CanRemove, Removed, CanCopy, HasHead, StartsAt};
ghost use Rattle.book.specs.Tally.{tallied, filled, booked_rows, CanCount};

use pool::Rec;
use std::mem;

// A row number, from 1.
#[derive(Clone, Copy, PartialEq, Eq, PartialOrd, Ord)]
pub struct Row(pub u32);

// A column's id, from 1.
#[derive(Clone, Copy, PartialEq, Eq, PartialOrd, Ord)]
pub struct Id(pub u32);

// The book's tables, lent to be read: a head for each id, rows and nexts by record.
#[derive(Clone, Copy)]
pub struct BookView<'a> {
    pub heads: &'a [u32],
    pub rows: &'a [u16],
    pub next: &'a [u32],
}

// Writes a book with no column, and gives the free head.
pub fn open(heads: &mut [u32], rows: &mut [u16], next: &mut [u32]) -> Rec
    requires { (length rows.old ≡ length next.old) × (length next.old < 4294967295) }
    ensures { book_of heads.new rows.new next.new result.0 ≡ opened (length heads.old) (length next.old) }
{
    heads.fill(0);
    rows.fill(0);
    pool::link_free(next, 0)
}

// The most rows that a column can have.
const MOST: usize = 256;

impl BookView<'_> {
    // Walks the chain of the head at place i, which is not 0, after met records: its rows must rise within 1 to m, and be at most MOST.
    fn walk_column(self, i: usize, met: usize, m: u32) -> Option<(usize, Rec)>
        requires { CanWalk self.heads.now self.rows.now self.next.now i met }
        ensures { ColumnWalked self.entry.heads.now self.entry.rows.now self.entry.next.now i met m result }
    {
        let BookView { heads, rows, next } = self;
        let mut r = heads[i];
        let mut last: u32 = 0;
        let mut above: u32 = 0;
        let mut k: usize = 0;
        while r != 0 {
            let place = (r - 1) as usize;
            let after = *next.get(place)?;
            let row = rows[place] as u32;
            if row <= above || m < row {
                return None;
            }
            above = row;
            last = r;
            r = after;
            k += 1;
        }
        if MOST < k || next.len() - met < k {
            return None;
        }
        Some((met + k, Rec(last)))
    }

    // Walks the chains of all ids; the last record of each is named in scratch, names first, then the last records by id. Gives the number of records met.
    fn walk_columns(self, scratch: &mut [u32], m: u32) -> Option<usize>
        requires { CanReadThrough self.heads.now self.rows.now self.next.now scratch.old }
        ensures { ColumnsWalked self.entry.heads.now self.entry.rows.now self.entry.next.now scratch.new m result }
    {
        let c = self.next.len();
        let mut n: usize = 0;
        for (i, head) in self.heads.iter().enumerate() {
            let k = (i + 1) as u32;
            if *head == 0 {
                ends::name(scratch, c, 0, k, Rec(0));
            } else {
                let (met, last) = self.walk_column(i, n, m)?;
                ends::name(scratch, c, 0, k, last);
                n = met;
            }
        }
        Some(n)
    }

    // Whether the book is sound, for any contents. Scratch, a place for each record and each id, may hold anything.
    pub fn read_through(self, scratch: &mut [u32], free: Rec, m: u32) -> bool
        requires { CanReadThrough self.heads.now self.rows.now self.next.now scratch.old }
        ensures { result ≡ is_sound m (book_viewed self.entry free.0) }
    {
        let c = self.next.len();
        let Some(n) = self.walk_columns(scratch, m) else {
            return false;
        };
        let left = c - n;
        ends::are_apart(scratch, c, 0, self.heads.len())
            && free_chain::zeros(self.rows) == left
            && free_chain::has(self.rows, self.next, scratch, free, left)
    }

    // Writes the rows of an id's column to the front of list, and gives their number.
    pub fn copy_rows(self, list: &mut [u32], id: Id) -> u32
        requires { CanCopy self.heads.now self.rows.now self.next.now id.0 (length list.old) }
        ensures number { result ≡ length (column_for (book_viewed self.entry 0) id.0).rows }
        ensures written { list.new ≡ over (column_for (book_viewed self.entry 0) id.0).rows list.old }
    {
        let mut r = self.heads[(id.0 - 1) as usize];
        let mut n: u32 = 0;
        while r != 0 {
            let i = (r - 1) as usize;
            list[n as usize] = self.rows[i] as u32;
            r = self.next[i];
            n += 1;
        }
        n
    }

    // Counts the rows of an id's column, one more in the counter of each. Gives how many counters left 0.
    pub fn count_rows(self, counters: &mut [u32], id: Id) -> u32
        requires { CanCount self.heads.now self.rows.now self.next.now counters.old id.0 }
        ensures counted { counters.new ≡ tallied counters.old (booked_rows self.entry.heads.now self.entry.rows.now self.entry.next.now id.0) }
        ensures raised { result + filled counters.old ≡ filled counters.new }
    {
        let mut size: u32 = 0;
        let mut r = self.heads[(id.0 - 1) as usize];
        while r != 0 {
            let i = (r - 1) as usize;
            let counter = &mut counters[(self.rows[i] - 1) as usize];
            if *counter == 0 {
                size += 1;
            }
            *counter += 1;
            r = self.next[i];
        }
        size
    }
}

// Whether k more rows fit into the free records.
pub fn fits(next: &[u32], free: Rec, k: u32) -> bool
    requires { Linked next.now free.0 (chain next.now free.0) }
    ensures { result ≡ leb k (length (chain next.now free.0)) }
{
    k <= pool::count(next, free, k)
}

// Whether an id is booked.
pub fn is_booked(heads: &[u32], id: Id) -> bool
    requires { (1 ≤ id.0) × (id.0 ≤ length heads.now) }
    ensures { result ≡ is_booked heads.now id.0 }
{
    heads[(id.0 - 1) as usize] != 0
}

// The smallest row of an id's column, or row 0 where the id is not booked.
pub fn smallest_row(heads: &[u32], rows: &[u16], id: Id) -> Row
    requires { HasHead heads.now rows.now id.0 }
    ensures { StartsAt heads.now rows.now id.0 result.0 }
{
    match heads[(id.0 - 1) as usize] {
        0 => Row(0),
        r => Row(rows[(r - 1) as usize] as u32),
    }
}

// Writes the rows of list along the chain from head, and gives the last record written.
fn write_rows(rows: &mut [u16], next: &[u32], list: &[u32], head: Rec) -> Rec
    requires { CanWrite rows.old next.now list.now head.0 }
    ensures { RowsWritten rows.old rows.new next.now list.now head.0 result.0 }
{
    let mut r = head.0;
    let mut last = head.0;
    for v in list {
        let i = (r - 1) as usize;
        rows[i] = *v as u16;
        last = r;
        r = next[i];
    }
    Rec(last)
}

// Writes row 0 along the whole chain from head, and gives its last record.
fn clear_rows(rows: &mut [u16], next: &[u32], head: Rec) -> Rec
    requires { HasChain rows.old next.now head.0 × (head.0 ≢ 0) }
    ensures { Cleared rows.old rows.new next.now head.0 result.0 }
{
    let mut r = head.0;
    let mut last = head.0;
    while r != 0 {
        let i = (r - 1) as usize;
        rows[i] = 0;
        last = r;
        r = next[i];
    }
    Rec(last)
}

// Books the rows of list under an id, in the first free records. Gives the free head.
pub fn add_column(
    heads: &mut [u32],
    rows: &mut [u16],
    next: &mut [u32],
    list: &[u32],
    free: Rec,
    id: Id,
) -> Rec
    requires { CanAdd (book_of heads.old rows.old next.old free.0) id.0 list.now }
    ensures { Added (book_of heads.old rows.old next.old free.0) id.0 list.now (book_of heads.new rows.new next.new result.0) }
{
    let last = write_rows(rows, next, list, free);
    let rest = pool::cut_after(next, last);
    heads[(id.0 - 1) as usize] = free.0;
    rest
}

// Gives the records of an id's column back, before the free chain. Gives the free head.
pub fn remove_column(
    heads: &mut [u32],
    rows: &mut [u16],
    next: &mut [u32],
    free: Rec,
    id: Id,
) -> Rec
    requires { CanRemove (book_of heads.old rows.old next.old free.0) id.0 }
    ensures { Removed (book_of heads.old rows.old next.old free.0) id.0 (book_of heads.new rows.new next.new result.0) }
{
    let head = Rec(mem::replace(&mut heads[(id.0 - 1) as usize], 0));
    let last = clear_rows(rows, next, head);
    pool::join_after(next, last, free);
    head
}
