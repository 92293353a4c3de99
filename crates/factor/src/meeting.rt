// Public questions about a delivery run, which is a row: the columns that meet it, and the row where the paths of some rows join.
ghost use Rattle.tables.specs.Lent.{tables_in};
ghost use Rattle.questions.specs.Asked.{reply_of};
ghost use Rattle.calls.specs.Calls.{call_of};
ghost use Rattle.calls.specs.Calls.Entry.{asking};
ghost use Rattle.calls.specs.Calls.Question.{ask_meets, ask_common};
ghost use Rattle.calls.specs.Lent.{work_in, work_out, list_in, list_out};
ghost use Rattle.factor.specs.Entries.{world_of, ReadStep};

use crate::Factor;
use book::Row;
use questions::Reply;

impl Factor {
    // The columns whose pattern holds row i, ascending, from the given place of the list on, and their number.
    pub fn meets(
        self,
        heads: &[u32],
        parents: &[u16],
        rows: &[u16],
        counts: &[u16],
        next: &[u32],
        book_heads: &[u32],
        book_rows: &[u16],
        book_next: &[u32],
        windows: &[u32],
        work: &mut [u32],
        list: &mut [u32],
        i: Row,
        place: usize,
    ) -> Reply
        ensures { ReadStep (world_of self (tables_in heads parents rows counts next book_heads book_rows book_next windows)) (call_of (asking (ask_meets i.0) place) (list_in work list)) (reply_of result) (list_out work list) }
    {
        if let Err(reason) = self.admit(
            heads, parents, rows, counts, next, book_heads, book_rows, book_next, windows, work,
            true,
        ) {
            return Reply::refused(reason);
        }
        self.meets_unchecked(
            heads, parents, rows, counts, next, book_heads, book_rows, book_next, windows, work,
            list, i, place,
        )
    }

    // The smallest row that lies on the paths of all of the rows, 1 to 64 of them; 0 where there is none.
    pub fn common(
        self,
        heads: &[u32],
        parents: &[u16],
        rows: &[u16],
        counts: &[u16],
        next: &[u32],
        book_heads: &[u32],
        book_rows: &[u16],
        book_next: &[u32],
        windows: &[u32],
        work: &mut [u32],
        row_list: &[u32],
    ) -> Reply
        ensures { ReadStep (world_of self (tables_in heads parents rows counts next book_heads book_rows book_next windows)) (call_of (asking (ask_common row_list.now) 0) (work_in work)) (reply_of result) (work_out work) }
    {
        if let Err(reason) = self.admit(
            heads, parents, rows, counts, next, book_heads, book_rows, book_next, windows, work,
            true,
        ) {
            return Reply::refused(reason);
        }
        self.common_unchecked(
            heads, parents, rows, counts, next, book_heads, book_rows, book_next, windows, row_list,
        )
    }
}
