// The columns of a batch enter the book, position by position with their part of the one list of rows, or leave it. The cost is that of their rows.
#![tactic(auto)]

ghost use Rattle.std.specs.Prelude.{ℕ};
ghost use Rattle.book.specs.Book.{book_of};
ghost use Rattle.entering.specs.Entering.{SomeEnter, CanEnter, Entered, SomeLeave, CanLeave, Left};

use book::Id;
use pool::Rec;

// Books each column of the batch, with as many rows of the list as its count says, one after another. Gives the free head.
pub fn enter_columns(
    book_heads: &mut [u32],
    book_rows: &mut [u16],
    book_next: &mut [u32],
    ids: &[u32],
    row_counts: &[u32],
    row_list: &[u32],
    free: Rec,
) -> Rec
    requires { SomeEnter (book_of book_heads.old book_rows.old book_next.old free.0) ids.now row_counts.now row_list.now }
    ensures { (m : ℕ) → CanEnter m (book_of book_heads.old book_rows.old book_next.old free.0) ids.now row_counts.now row_list.now → Entered m (book_of book_heads.old book_rows.old book_next.old free.0) ids.now row_counts.now row_list.now (book_of book_heads.new book_rows.new book_next.new result.0) }
{
    let mut z = free;
    let mut a: usize = 0;
    for (k, id) in ids.iter().enumerate() {
        let e = a + row_counts[k] as usize;
        z = book::add_column(
            book_heads,
            book_rows,
            book_next,
            &row_list[a..e],
            z,
            Id(*id),
        );
        a = e;
    }
    z
}

// Gives the records of each id's column back. Gives the free head.
pub fn leave_columns(
    book_heads: &mut [u32],
    book_rows: &mut [u16],
    book_next: &mut [u32],
    ids: &[u32],
    free: Rec,
) -> Rec
    requires { SomeLeave (book_of book_heads.old book_rows.old book_next.old free.0) ids.now }
    ensures { (m : ℕ) → CanLeave m (book_of book_heads.old book_rows.old book_next.old free.0) ids.now → Left m (book_of book_heads.old book_rows.old book_next.old free.0) ids.now (book_of book_heads.new book_rows.new book_next.new result.0) }
{
    let mut z = free;
    for id in ids {
        z = book::remove_column(book_heads, book_rows, book_next, z, Id(*id));
    }
    z
}
