// The questions about rows: the columns that meet a row, and the smallest row on the paths of all of some rows.
use crate::{Host, WORK};
use book::Row;
use questions::Reply;

// What such a question gives: its reply, and the work table, which holds 7 before it.
#[derive(Clone, Copy)]
pub struct Asked {
    pub reply: Reply,
    pub work: [u32; WORK],
}

impl Host {
    // The columns that meet row i, from the given place of the list onward.
    pub fn meets(&self, list: &mut [u32], i: u32, place: usize) -> Asked {
        let mut work = [7u32; WORK];
        let reply = self.factor.meets(
            &self.heads,
            &self.parents,
            &self.rows,
            &self.counts,
            &self.next,
            &self.book_heads,
            &self.book_rows,
            &self.book_next,
            &self.windows,
            &mut work,
            list,
            Row(i),
            place,
        );
        Asked { reply, work }
    }

    // The smallest row on the paths of all rows that are named.
    pub fn common(&self, row_list: &[u32]) -> Asked {
        let mut work = [7u32; WORK];
        let reply = self.factor.common(
            &self.heads,
            &self.parents,
            &self.rows,
            &self.counts,
            &self.next,
            &self.book_heads,
            &self.book_rows,
            &self.book_next,
            &self.windows,
            &mut work,
            row_list,
        );
        Asked { reply, work }
    }
}
