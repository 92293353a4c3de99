// The record as functions inside the library take it, and the admission of a call on it: for the entries here and in `changes`.
ghost use Rattle.std.specs.Prelude.{◌≡◌, true};
ghost use Rattle.tables.specs.Lent.{tables_in};
ghost use Rattle.admission.specs.Admission.{Admitted};
ghost use Rattle.early_refusals.specs.Refusal.{number_in};
ghost use Rattle.calls.specs.Refusals.{early_refusal};
ghost use Rattle.state.specs.Record.{state_of as record_state};
ghost use Rattle.factor.specs.Entries.{state_of};

use crate::Factor;
use book::BookView;
use early_refusals::Refusal;
use pool::Rec;
use state::State;
use tables::{ColumnsView, TablesView};

// Refuses an opening by 1 to 5 or 20; keeps_rule: its limits do.
pub fn early(
    asked: State,
    heads: &[u32],
    parents: &[u16],
    rows: &[u16],
    counts: &[u16],
    next: &[u32],
    book_heads: &[u32],
    book_rows: &[u16],
    book_next: &[u32],
    windows: &[u32],
    work: &[u32],
    keeps_rule: bool,
) -> Result<(), Refusal>
    ensures { number_in result ≡ (early_refusal (record_state asked).sizes keeps_rule (tables_in heads parents rows counts next book_heads book_rows book_next windows) work.now true).number }
{
    let tables = TablesView {
        columns: ColumnsView {
            heads,
            parents,
            rows,
            counts,
            next,
        },
        book: BookView {
            heads: book_heads,
            rows: book_rows,
            next: book_next,
        },
        windows,
    };
    admission::early(asked, tables, work, keeps_rule, true)
}

impl Factor {
    // The record by value.
    pub fn state(self) -> State
        ensures { record_state result ≡ state_of self }
    {
        State {
            m: self.m,
            n: self.n,
            f: self.f,
            c: self.c,
            free: Rec(self.free),
            book_free: Rec(self.book_free),
            grade2: self.grade2,
            grade3: self.grade3,
            grade4: self.grade4,
            clock: self.clock,
        }
    }

    // Refuses a call by 1 to 6; lists: a change's lists are long enough. Where 1 to 5 are passed the first W work places are zero afterwards.
    pub fn admit(
        self,
        heads: &[u32],
        parents: &[u16],
        rows: &[u16],
        counts: &[u16],
        next: &[u32],
        book_heads: &[u32],
        book_rows: &[u16],
        book_next: &[u32],
        windows: &[u32],
        work: &mut [u32],
        lists: bool,
    ) -> Result<(), Refusal>
        ensures { Admitted (state_of self) (tables_in heads parents rows counts next book_heads book_rows book_next windows) work.old lists (number_in result) work.new }
    {
        let tables = TablesView {
            columns: ColumnsView {
                heads,
                parents,
                rows,
                counts,
                next,
            },
            book: BookView {
                heads: book_heads,
                rows: book_rows,
                next: book_next,
            },
            windows,
        };
        admission::admit(self.state(), tables, work, lists)
    }
}
