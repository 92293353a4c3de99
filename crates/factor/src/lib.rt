// A factor's record, and the public entries that open it, check its tables and answer questions, two of these in meeting.rt; `changes` has those that add and remove, `clock` the one that sets the clock.
// Each refuses unusable input by number and fixes everything lent; an opening writes all tables, the others none but the work table. Numbers 1 to 6 and 20 are found by
// `admission`, what an opening writes is written by `opening`. A caller that has proved its tables sound uses the unchecked twins of unchecked.rt.
#![tactic(auto)]

ghost use Rattle.symbolic.specs.Grades.{limits_of};
ghost use Rattle.tables.specs.Tables.{tables_of, sizes_of};
ghost use Rattle.tables.specs.Lent.{tables_in};
ghost use Rattle.questions.specs.Asked.{reply_of, found_of};
ghost use Rattle.calls.specs.Calls.{call_of};
ghost use Rattle.calls.specs.Calls.Entry.{checking, asking};
ghost use Rattle.calls.specs.Calls.Question.{ask_next_row, ask_parent, ask_path, ask_column};
ghost use Rattle.calls.specs.Lent.{work_in, work_out, list_in, list_out};
ghost use Rattle.factor.specs.Entries.{world_of, OpenStep, ReadStep};

mod admitting;
mod meeting;
mod unchecked;

use book::Row;
use early_refusals::Refusal;
use pool::Rec;
use questions::{Found, Reply};
use state::State;

// The record of sizes, free heads, limits and clock: from so many entries on a grade is 2, 3 and 4; the clock is the minute at which the factor stands.
#[repr(C)]
#[derive(Clone, Copy)]
pub struct Factor {
    pub m: u32,
    pub n: u32,
    pub f: u32,
    pub c: u32,
    pub free: u32,
    pub book_free: u32,
    pub grade2: u32,
    pub grade3: u32,
    pub grade4: u32,
    pub clock: u32,
}

impl Factor {
    // The largest m.
    pub const MOST_ROWS: u32 = State::MOST_ROWS;
    // The largest n.
    pub const MOST_IDS: u32 = State::MOST_IDS;
    // The largest F.
    pub const MOST_RECORDS: u32 = State::MOST_RECORDS;
    // The largest C.
    pub const MOST_BOOKED: u32 = State::MOST_BOOKED;

    // A fresh factor at minute 0: writes all tables. F = 0 means as many records as `early_refusals::default_records` says. From grade2, grade3 and grade4 entries on a grade is 2, 3
    // and 4: the first is at least 2, each above the one before, or 20 refuses the opening; three zeros mean 256, 4,096 and 65,536.
    pub fn open(
        m: u32,
        n: u32,
        f: u32,
        c: u32,
        grade2: u32,
        grade3: u32,
        grade4: u32,
        heads: &mut [u32],
        parents: &mut [u16],
        rows: &mut [u16],
        counts: &mut [u16],
        next: &mut [u32],
        book_heads: &mut [u32],
        book_rows: &mut [u16],
        book_next: &mut [u32],
        windows: &mut [u32],
        work: &mut [u32],
    ) -> Result<Factor, Refusal>
        ensures { OpenStep (sizes_of m n f c) (limits_of grade2 grade3 grade4) (tables_of heads.old parents.old rows.old counts.old next.old book_heads.old book_rows.old book_next.old windows.old) work.old result (tables_of heads.new parents.new rows.new counts.new next.new book_heads.new book_rows.new book_next.new windows.new) work.new }
    {
        let records = early_refusals::default_records(m, f);
        let limits = early_refusals::limits::default_limits(grade2, grade3, grade4);
        let asked = State {
            m,
            n,
            f: records,
            c,
            free: Rec(0),
            book_free: Rec(0),
            grade2: limits.grade2,
            grade3: limits.grade3,
            grade4: limits.grade4,
            clock: 0,
        };
        let keeps_rule = early_refusals::limits::are_limits(
            asked.grade2,
            asked.grade3,
            asked.grade4,
        );
        admitting::early(
            asked, heads, parents, rows, counts, next, book_heads, book_rows, book_next, windows,
            work, keeps_rule,
        )?;
        let free = opening::write(
            heads, parents, rows, counts, next, book_heads, book_rows, book_next, windows, work, m,
            n, records, c,
        );
        Ok(Factor {
            m,
            n,
            f: records,
            c,
            free: free.0.0,
            book_free: free.1.0,
            grade2: asked.grade2,
            grade3: asked.grade3,
            grade4: asked.grade4,
            clock: 0,
        })
    }

    // Whether the tables are sound, and the record's limits: 0, or 6 for no; 1 to 5 refuse the call as any other.
    pub fn check(
        self,
        heads: &[u32],
        parents: &[u16],
        rows: &[u16],
        counts: &[u16],
        next: &[u32],
        book_heads: &[u32],
        book_rows: &[u16],
        book_next: &[u32],
        windows: &[u32],
        work: &mut [u32],
    ) -> Reply
        ensures { ReadStep (world_of self (tables_in heads parents rows counts next book_heads book_rows book_next windows)) (call_of checking (work_in work)) (reply_of result) (work_out work) }
    {
        if let Err(reason) = self.admit(
            heads, parents, rows, counts, next, book_heads, book_rows, book_next, windows, work,
            true,
        ) {
            return Reply::refused(reason);
        }
        Reply::of(0)
    }

    // The first row at or above i in column j and its multiplicity, both 0 if the column ends before.
    pub fn next_row(
        self,
        heads: &[u32],
        parents: &[u16],
        rows: &[u16],
        counts: &[u16],
        next: &[u32],
        book_heads: &[u32],
        book_rows: &[u16],
        book_next: &[u32],
        windows: &[u32],
        work: &mut [u32],
        i: Row,
        j: Row,
    ) -> Found
        ensures { ReadStep (world_of self (tables_in heads parents rows counts next book_heads book_rows book_next windows)) (call_of (asking (ask_next_row i.0 j.0) 0) (work_in work)) (found_of result) (work_out work) }
    {
        if let Err(reason) = self.admit(
            heads, parents, rows, counts, next, book_heads, book_rows, book_next, windows, work,
            true,
        ) {
            return Found::refused(reason);
        }
        self.next_row_unchecked(
            heads, parents, rows, counts, next, book_heads, book_rows, book_next, windows, i, j,
        )
    }

    // The parent of j, 0 for a root.
    pub fn parent(
        self,
        heads: &[u32],
        parents: &[u16],
        rows: &[u16],
        counts: &[u16],
        next: &[u32],
        book_heads: &[u32],
        book_rows: &[u16],
        book_next: &[u32],
        windows: &[u32],
        work: &mut [u32],
        j: Row,
    ) -> Reply
        ensures { ReadStep (world_of self (tables_in heads parents rows counts next book_heads book_rows book_next windows)) (call_of (asking (ask_parent j.0) 0) (work_in work)) (reply_of result) (work_out work) }
    {
        if let Err(reason) = self.admit(
            heads, parents, rows, counts, next, book_heads, book_rows, book_next, windows, work,
            true,
        ) {
            return Reply::refused(reason);
        }
        self.parent_unchecked(
            heads, parents, rows, counts, next, book_heads, book_rows, book_next, windows, j,
        )
    }

    // The path of j, a row to a place from the given place of the list on, and its length.
    pub fn path(
        self,
        heads: &[u32],
        parents: &[u16],
        rows: &[u16],
        counts: &[u16],
        next: &[u32],
        book_heads: &[u32],
        book_rows: &[u16],
        book_next: &[u32],
        windows: &[u32],
        work: &mut [u32],
        list: &mut [u32],
        j: Row,
        place: usize,
    ) -> Reply
        ensures { ReadStep (world_of self (tables_in heads parents rows counts next book_heads book_rows book_next windows)) (call_of (asking (ask_path j.0) place) (list_in work list)) (reply_of result) (list_out work list) }
    {
        if let Err(reason) = self.admit(
            heads, parents, rows, counts, next, book_heads, book_rows, book_next, windows, work,
            true,
        ) {
            return Reply::refused(reason);
        }
        self.path_unchecked(
            heads, parents, rows, counts, next, book_heads, book_rows, book_next, windows, list, j,
            place,
        )
    }

    // Column j, row then multiplicity from the given place of the list on, and its number of entries.
    pub fn column(
        self,
        heads: &[u32],
        parents: &[u16],
        rows: &[u16],
        counts: &[u16],
        next: &[u32],
        book_heads: &[u32],
        book_rows: &[u16],
        book_next: &[u32],
        windows: &[u32],
        work: &mut [u32],
        list: &mut [u32],
        j: Row,
        place: usize,
    ) -> Reply
        ensures { ReadStep (world_of self (tables_in heads parents rows counts next book_heads book_rows book_next windows)) (call_of (asking (ask_column j.0) place) (list_in work list)) (reply_of result) (list_out work list) }
    {
        if let Err(reason) = self.admit(
            heads, parents, rows, counts, next, book_heads, book_rows, book_next, windows, work,
            true,
        ) {
            return Reply::refused(reason);
        }
        self.column_unchecked(
            heads, parents, rows, counts, next, book_heads, book_rows, book_next, windows, list, j,
            place,
        )
    }
}
