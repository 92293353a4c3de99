// A factor with its tables, held by value: each public entry of the factor on them, for programs that run cases. The work table is made anew for each call and
// holds no zeros before it. In changing.rt are additions, removals and the clock, in meeting.rt the questions about rows.
#![tactic(auto)]

pub mod changing;
pub mod meeting;

ghost use Rattle.std.specs.Prelude.{◌≤◌};

use book::Row;
use factor::Factor;
use questions::{Found, Reply};

// The work places that the tables need.
const WORK: usize = 12160;

// The record with the clock, and tables for at most 64 rows, 256 ids, 2,080 factor records and 2,048 book records; a first and a second minute for each id.
#[derive(Clone, Copy)]
pub struct Host {
    pub heads: [u32; 64],
    pub parents: [u16; 64],
    pub rows: [u16; 2080],
    pub counts: [u16; 2080],
    pub next: [u32; 2080],
    pub book_heads: [u32; 256],
    pub book_rows: [u16; 2048],
    pub book_next: [u32; 2048],
    pub windows: [u32; 512],
    pub factor: Factor,
}

impl Host {
    // Before any opening: sizes of 0, and tables of any content.
    pub fn unopened() -> Self {
        Host {
            heads: [9; 64],
            parents: [9; 64],
            rows: [9; 2080],
            counts: [9; 2080],
            next: [9; 2080],
            book_heads: [9; 256],
            book_rows: [9; 2048],
            book_next: [9; 2048],
            windows: [9; 512],
            factor: Factor {
                m: 0,
                n: 0,
                f: 0,
                c: 0,
                free: 0,
                book_free: 0,
                grade2: 0,
                grade3: 0,
                grade4: 0,
                clock: 0,
            },
        }
    }

    // How many rows the factor has.
    pub fn row_count(&self) -> u32
        ensures { result ≤ 64 }
    {
        self.factor.m.min(64)
    }

    // Opens, and gives the number. After a refused opening the record from before it serves on.
    pub fn open(
        &mut self,
        m: u32,
        n: u32,
        f: u32,
        c: u32,
        grade2: u32,
        grade3: u32,
        grade4: u32,
    ) -> u32 {
        let opening = Factor::open(
            m,
            n,
            f,
            c,
            grade2,
            grade3,
            grade4,
            &mut self.heads,
            &mut self.parents,
            &mut self.rows,
            &mut self.counts,
            &mut self.next,
            &mut self.book_heads,
            &mut self.book_rows,
            &mut self.book_next,
            &mut self.windows,
            &mut [7; WORK],
        );
        match opening {
            Ok(record) => {
                self.factor = record;
                0
            }
            Err(refusal) => refusal.number(),
        }
    }

    // ---- the check and questions

    // Whether the tables are sound: 0, or 6 for no.
    pub fn check(&self) -> Reply {
        self.factor.check(
            &self.heads,
            &self.parents,
            &self.rows,
            &self.counts,
            &self.next,
            &self.book_heads,
            &self.book_rows,
            &self.book_next,
            &self.windows,
            &mut [7; WORK],
        )
    }

    // The first row at or above i in column j, with its multiplicity.
    pub fn next_row(&self, i: u32, j: u32) -> Found {
        self.factor.next_row(
            &self.heads,
            &self.parents,
            &self.rows,
            &self.counts,
            &self.next,
            &self.book_heads,
            &self.book_rows,
            &self.book_next,
            &self.windows,
            &mut [7; WORK],
            Row(i),
            Row(j),
        )
    }

    // The parent of row j.
    pub fn parent(&self, j: u32) -> Reply {
        self.factor.parent(
            &self.heads,
            &self.parents,
            &self.rows,
            &self.counts,
            &self.next,
            &self.book_heads,
            &self.book_rows,
            &self.book_next,
            &self.windows,
            &mut [7; WORK],
            Row(j),
        )
    }

    // The path of row j, from the given place of the list onward.
    pub fn path(&self, list: &mut [u32], j: u32, place: usize) -> Reply {
        self.factor.path(
            &self.heads,
            &self.parents,
            &self.rows,
            &self.counts,
            &self.next,
            &self.book_heads,
            &self.book_rows,
            &self.book_next,
            &self.windows,
            &mut [7; WORK],
            list,
            Row(j),
            place,
        )
    }

    // Column j, from the given place of the list onward.
    pub fn column(&self, list: &mut [u32], j: u32, place: usize) -> Reply {
        self.factor.column(
            &self.heads,
            &self.parents,
            &self.rows,
            &self.counts,
            &self.next,
            &self.book_heads,
            &self.book_rows,
            &self.book_next,
            &self.windows,
            &mut [7; WORK],
            list,
            Row(j),
            place,
        )
    }
}
