// The unchecked twins of the questions: their premise is that sizes are in range and tables long enough and sound; for the columns that meet a row also that the first
// W work places are zero. Other questions take no work table. A question costs what it reads; include/nigvalds.h says what the columns that meet a row and a common
// row cost after the read-through.
ghost use Rattle.std.specs.Prelude.{◌≡◌};
ghost use Rattle.tables.specs.Tables.{register_of};
ghost use Rattle.tables.specs.Lent.{tables_in, tables_now};
ghost use Rattle.calls.specs.Calls.Question.{ask_next_row, ask_parent, ask_path, ask_column, ask_meets, ask_common};
ghost use Rattle.questions.specs.Asked.{reply_of, found_of, replied_to, replied, list_left};
ghost use Rattle.factor.specs.Entries.{state_of};
ghost use Rattle.admission.specs.Admission.{Usable, CanUse};

use crate::Factor;
use book::Row;
use questions::{Found, Reply};

impl Factor {
    // The first row at or above i in column j and its multiplicity, both 0 if the column ends before.
    pub fn next_row_unchecked(
        self,
        heads: &[u32],
        parents: &[u16],
        rows: &[u16],
        counts: &[u16],
        next: &[u32],
        book_heads: &[u32],
        book_rows: &[u16],
        book_next: &[u32],
        windows: &[u32],
        i: Row,
        j: Row,
    ) -> Found
        requires { Usable (state_of self) (tables_now heads parents rows counts next book_heads book_rows book_next windows) }
        ensures { found_of result ≡ replied (register_of (state_of self) (tables_in heads parents rows counts next book_heads book_rows book_next windows)) (ask_next_row i.0 j.0) }
    {
        let m = self.m as usize;
        let f = self.f as usize;
        questions::next_row(&heads[..m], &rows[..f], &counts[..f], &next[..f], i, j)
    }

    // The parent of j, 0 for a root.
    pub fn parent_unchecked(
        self,
        heads: &[u32],
        parents: &[u16],
        rows: &[u16],
        counts: &[u16],
        next: &[u32],
        book_heads: &[u32],
        book_rows: &[u16],
        book_next: &[u32],
        windows: &[u32],
        j: Row,
    ) -> Reply
        requires { Usable (state_of self) (tables_now heads parents rows counts next book_heads book_rows book_next windows) }
        ensures { reply_of result ≡ replied (register_of (state_of self) (tables_in heads parents rows counts next book_heads book_rows book_next windows)) (ask_parent j.0) }
    {
        let m = self.m as usize;
        questions::parent(&parents[..m], j)
    }

    // The path of j, from the given place of the list on, and its length.
    pub fn path_unchecked(
        self,
        heads: &[u32],
        parents: &[u16],
        rows: &[u16],
        counts: &[u16],
        next: &[u32],
        book_heads: &[u32],
        book_rows: &[u16],
        book_next: &[u32],
        windows: &[u32],
        list: &mut [u32],
        j: Row,
        place: usize,
    ) -> Reply
        requires { Usable (state_of self) (tables_now heads parents rows counts next book_heads book_rows book_next windows) }
        ensures reply { reply_of result ≡ replied_to (register_of (state_of self) (tables_in heads parents rows counts next book_heads book_rows book_next windows)) (ask_path j.0) place list.old }
        ensures written { list.new ≡ list_left (register_of (state_of self) (tables_in heads parents rows counts next book_heads book_rows book_next windows)) (ask_path j.0) place list.old }
    {
        let m = self.m as usize;
        questions::path(&parents[..m], list, j, place)
    }

    // Column j, row then multiplicity from the given place of the list on, and its number of entries.
    pub fn column_unchecked(
        self,
        heads: &[u32],
        parents: &[u16],
        rows: &[u16],
        counts: &[u16],
        next: &[u32],
        book_heads: &[u32],
        book_rows: &[u16],
        book_next: &[u32],
        windows: &[u32],
        list: &mut [u32],
        j: Row,
        place: usize,
    ) -> Reply
        requires { Usable (state_of self) (tables_now heads parents rows counts next book_heads book_rows book_next windows) }
        ensures reply { reply_of result ≡ replied_to (register_of (state_of self) (tables_in heads parents rows counts next book_heads book_rows book_next windows)) (ask_column j.0) place list.old }
        ensures written { list.new ≡ list_left (register_of (state_of self) (tables_in heads parents rows counts next book_heads book_rows book_next windows)) (ask_column j.0) place list.old }
    {
        let m = self.m as usize;
        let f = self.f as usize;
        questions::column(
            &heads[..m],
            &rows[..f],
            &counts[..f],
            &next[..f],
            list,
            j,
            place,
        )
    }

    // The columns that meet row i, from the given place of the list on, and their number. The first W work places are zero, and so again afterwards.
    pub fn meets_unchecked(
        self,
        heads: &[u32],
        parents: &[u16],
        rows: &[u16],
        counts: &[u16],
        next: &[u32],
        book_heads: &[u32],
        book_rows: &[u16],
        book_next: &[u32],
        windows: &[u32],
        work: &mut [u32],
        list: &mut [u32],
        i: Row,
        place: usize,
    ) -> Reply
        requires { CanUse (state_of self) (tables_now heads parents rows counts next book_heads book_rows book_next windows) work.old }
        ensures reply { reply_of result ≡ replied_to (register_of (state_of self) (tables_in heads parents rows counts next book_heads book_rows book_next windows)) (ask_meets i.0) place list.old }
        ensures written { list.new ≡ list_left (register_of (state_of self) (tables_in heads parents rows counts next book_heads book_rows book_next windows)) (ask_meets i.0) place list.old }
        ensures kept { work.new ≡ work.old }
    {
        let m = self.m as usize;
        let f = self.f as usize;
        questions::meeting::meets(
            &heads[..m],
            &parents[..m],
            &rows[..f],
            &counts[..f],
            &next[..f],
            work,
            list,
            i,
            place,
        )
    }

    // The smallest row on the paths of all of the rows, 1 to 64 of them; 0 where there is none.
    pub fn common_unchecked(
        self,
        heads: &[u32],
        parents: &[u16],
        rows: &[u16],
        counts: &[u16],
        next: &[u32],
        book_heads: &[u32],
        book_rows: &[u16],
        book_next: &[u32],
        windows: &[u32],
        row_list: &[u32],
    ) -> Reply
        requires { Usable (state_of self) (tables_now heads parents rows counts next book_heads book_rows book_next windows) }
        ensures { reply_of result ≡ replied (register_of (state_of self) (tables_in heads parents rows counts next book_heads book_rows book_next windows)) (ask_common row_list.now) }
    {
        let m = self.m as usize;
        questions::ancestors::common(&parents[..m], row_list)
    }
}
