// The clock goes from one minute to another: booked columns that count at the first and not at the second leave the stored columns of L, those that count at the
// second and not at the first enter, as one change: in groups of at most 64, by rising id, those that leave first. Where the result does not fit, every table is as
// before, place by place. Book and windows do not change.
#![tactic(auto)]

ghost use Rattle.std.specs.Prelude.{◌≡◌, true, List, ℕ, length};
ghost use Rattle.symbolic.specs.Columns.{Column};
ghost use Rattle.tables.specs.Stored.{stored_of};
ghost use Rattle.tables.specs.Lent.{columns_lent, SameColumns};
ghost use Rattle.book.specs.Book.{tables_of};
ghost use Rattle.book.specs.Views.{book_viewed};
ghost use Rattle.exchange.specs.Exchange.{staying, leaving, entering, CanExchange, StoredExchanged};
ghost use Rattle.exchange.specs.Stages.{moving_ids, SomeSwap, CanSwap, Swapped, SomeUndo, CanUndo, Undone};

pub mod groups;
pub mod reporting;

use book::BookView;
use pool::Rec;
use tables::ColumnsMut;
use workspace::PLAN;

// Whether an exchange fits, the free head after it, and whether records were saved, as they are where somebody enters.
#[derive(Clone, Copy)]
pub struct Outcome {
    pub fits: bool,
    pub free: Rec,
    pub saved: bool,
}

// Brings back all records and parents, which are kept.
fn undo(columns: &mut ColumnsMut, work: &[u32])
    requires { SomeUndo (length columns.old.heads.now) columns.old.parents.now columns.old.rows.now columns.old.counts.now columns.old.next.now work.now }
    ensures same { SameColumns columns.old columns.new }
    ensures done { (ps xs ns ls : List ℕ) → CanUndo (length columns.old.heads.now) columns.old.parents.now columns.old.rows.now columns.old.counts.now columns.old.next.now work.now ps xs ns ls → Undone ps xs ns ls columns.new.parents.now columns.new.rows.now columns.new.counts.now columns.new.next.now }
{
    let m = columns.heads.len();
    let f = columns.next.len();
    snapshot::restoring::restore_records(
        columns.rows,
        columns.counts,
        columns.next,
        work,
        PLAN * m + f,
    );
    snapshot::restoring::restore_parents(columns.parents, work, PLAN * m + f + 2 * f);
}

// Those that count before and not after leave, then those that count after and not before enter. Where that does not fit, all records and parents are brought back.
fn swap(
    columns: &mut ColumnsMut,
    book: BookView,
    windows: &[u32],
    work: &mut [u32],
    before: u32,
    after: u32,
    free: Rec,
) -> Outcome
    requires { SomeSwap (columns_lent columns.old free.0) (book_viewed book 0) windows.now before after work.old }
    ensures same { SameColumns columns.old columns.new }
    ensures done { (R A B : List Column) → CanSwap (columns_lent columns.old free.0) (book_viewed book.entry 0) (moving_ids book.entry.heads.now windows.now before after) (moving_ids book.entry.heads.now windows.now after before) work.old R A B → Swapped (length columns.old.heads.now) (length columns.old.next.now) R A B (columns_lent columns.old free.0) (columns_lent columns.new result.free.0) work.old work.new result.fits }
    ensures saved { result.saved ≡ true }
{
    let z = groups::leave_all(columns, book, windows, work, before, after, free);
    let x = groups::enter_all(columns, book, windows, work, after, before, z);
    if x.is_none() {
        undo(columns, work);
        return Outcome {
            fits: false,
            free: free,
            saved: true,
        };
    }
    Outcome {
        fits: true,
        free: x.unwrap_or(free),
        saved: true,
    }
}

// Takes out the columns that count at the minute before and not at the one after, and lets in those that count after and not before; those that count at both stay.
// Records are saved only where somebody enters. The columns on the paths stand, each with its size before, behind the places of saved records.
pub fn exchange<'a>(
    heads: &[u32],
    parents: &mut [u16],
    rows: &mut [u16],
    counts: &mut [u16],
    next: &mut [u32],
    book_heads: &'a [u32],
    book_rows: &'a [u16],
    book_next: &'a [u32],
    windows: &[u32],
    work: &mut [u32],
    before: u32,
    after: u32,
    free: Rec,
) -> Outcome
    requires { CanExchange (stored_of heads.now parents.old rows.old counts.old next.old free.0) (tables_of book_heads.now book_rows.now book_next.now) windows.now before work.old }
    ensures { StoredExchanged (stored_of heads.now parents.old rows.old counts.old next.old free.0) (staying (tables_of book_heads.now book_rows.now book_next.now) windows.now before after) (leaving (tables_of book_heads.now book_rows.now book_next.now) windows.now before after) (entering (tables_of book_heads.now book_rows.now book_next.now) windows.now before after) work.old (stored_of heads.now parents.new rows.new counts.new next.new result.free.0) work.new result.fits result.saved }
{
    let m = heads.len();
    let f = next.len();
    snapshot::saving::save_parents(parents, work, PLAN * m + f + 2 * f);
    let book = BookView {
        heads: book_heads,
        rows: book_rows,
        next: book_next,
    };
    if groups::none_moves(book_heads, windows, after, before) {
        let mut columns = ColumnsMut {
            heads,
            parents,
            rows,
            counts,
            next,
        };
        let z = groups::leave_all(&mut columns, book, windows, work, before, after, free);
        return Outcome {
            fits: true,
            free: z,
            saved: false,
        };
    }
    snapshot::saving::save_records(rows, counts, next, work, PLAN * m + f);
    let mut columns = ColumnsMut {
        heads,
        parents,
        rows,
        counts,
        next,
    };
    swap(&mut columns, book, windows, work, before, after, free)
}
