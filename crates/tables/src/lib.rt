// The lent tables: the stored columns of L and the book, when they are sound, what an opening writes, and what it means that a column stays; and the structs in which
// tables go together.
#![tactic(auto)]

ghost use Rattle.std.specs.Prelude.{◌≡◌, true, ℕ};
ghost use Rattle.tables.specs.Tables.{sizes_of, long_enough};
ghost use Rattle.tables.specs.Lent.{columns_viewed, columns_lent, tables_viewed, tables_cut};

use book::BookView;

// The stored columns of L, lent to be read: heads and parents by column, rows, multiplicities and nexts by record.
#[derive(Clone, Copy)]
pub struct ColumnsView<'a> {
    pub heads: &'a [u32],
    pub parents: &'a [u16],
    pub rows: &'a [u16],
    pub counts: &'a [u16],
    pub next: &'a [u32],
}

// The stored columns of L, lent to be written; heads never change. A function that writes them promises `SameColumns`: the loans are those that it got, as long as
// they were.
#[derive(Drop)]
pub struct ColumnsMut<'a> {
    pub heads: &'a [u32],
    pub parents: &'a mut [u16],
    pub rows: &'a mut [u16],
    pub counts: &'a mut [u16],
    pub next: &'a mut [u32],
}

impl ColumnsMut<'_> {
    // The same columns, lent to be read.
    pub fn view(&self) -> ColumnsView<'_>
        ensures { (free : ℕ) → columns_viewed result free ≡ columns_lent self.now free }
    {
        ColumnsView {
            heads: self.heads,
            parents: self.parents,
            rows: self.rows,
            counts: self.counts,
            next: self.next,
        }
    }
}

// All tables, lent to be read.
#[derive(Clone, Copy)]
pub struct TablesView<'a> {
    pub columns: ColumnsView<'a>,
    pub book: BookView<'a>,
    pub windows: &'a [u32],
}

impl<'a> TablesView<'a> {
    // The tables within their sizes.
    pub fn within(self, m: u32, n: u32, f: u32, c: u32) -> TablesView<'a>
        requires { long_enough (sizes_of m n f c) (tables_viewed self) ≡ true }
        ensures { tables_viewed result ≡ tables_cut (sizes_of m n f c) (tables_viewed self.entry) }
    {
        let columns = self.columns;
        let book = self.book;
        let ids = n as usize;
        TablesView {
            columns: ColumnsView {
                heads: &columns.heads[..m as usize],
                parents: &columns.parents[..m as usize],
                rows: &columns.rows[..f as usize],
                counts: &columns.counts[..f as usize],
                next: &columns.next[..f as usize],
            },
            book: BookView {
                heads: &book.heads[..ids],
                rows: &book.rows[..c as usize],
                next: &book.next[..c as usize],
            },
            windows: &self.windows[..2 * ids],
        }
    }
}
