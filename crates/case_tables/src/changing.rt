// The changes: a batch added, a batch removed, the clock set.
use crate::{Host, WORK};
use answers::Changed;

// What a change gives: its answer, and the two lists, which hold 9 wherever it writes nothing.
#[derive(Clone, Copy)]
pub struct Batched {
    pub changed: Changed,
    pub touched: [u16; 64],
    pub labels: [u16; 64],
}

impl Host {
    // Adds a batch.
    pub fn add(
        &mut self,
        ids: &[u32],
        row_counts: &[u32],
        row_list: &[u32],
        firsts: &[u32],
        seconds: &[u32],
    ) -> Batched {
        let mut touched = [9u16; 64];
        let mut labels = [9u16; 64];
        let changed = changes::add(
            self.factor,
            &self.heads,
            &mut self.parents,
            &mut self.rows,
            &mut self.counts,
            &mut self.next,
            &mut self.book_heads,
            &mut self.book_rows,
            &mut self.book_next,
            &mut self.windows,
            &mut [7; WORK],
            &mut touched,
            &mut labels,
            ids,
            row_counts,
            row_list,
            firsts,
            seconds,
        );
        self.factor = changed.factor;
        Batched {
            changed,
            touched,
            labels,
        }
    }

    // Adds a batch of columns that have no window; more than 64 of them keep no step.
    pub fn add_always(&mut self, ids: &[u32], row_counts: &[u32], row_list: &[u32]) -> Batched {
        let none = [0u32; 64];
        let minutes = &none[..ids.len().min(64)];
        self.add(ids, row_counts, row_list, minutes, minutes)
    }

    // Removes a batch.
    pub fn remove(&mut self, ids: &[u32]) -> Batched {
        let mut touched = [9u16; 64];
        let mut labels = [9u16; 64];
        let changed = changes::remove(
            self.factor,
            &self.heads,
            &mut self.parents,
            &mut self.rows,
            &mut self.counts,
            &mut self.next,
            &mut self.book_heads,
            &mut self.book_rows,
            &mut self.book_next,
            &mut self.windows,
            &mut [7; WORK],
            &mut touched,
            &mut labels,
            ids,
        );
        self.factor = changed.factor;
        Batched {
            changed,
            touched,
            labels,
        }
    }

    // Sets the clock to a minute.
    pub fn set_clock(&mut self, minute: u32) -> Batched {
        let mut touched = [9u16; 64];
        let mut labels = [9u16; 64];
        let changed = clock::set_clock(
            self.factor,
            &self.heads,
            &mut self.parents,
            &mut self.rows,
            &mut self.counts,
            &mut self.next,
            &self.book_heads,
            &self.book_rows,
            &self.book_next,
            &self.windows,
            &mut [7; WORK],
            &mut touched,
            &mut labels,
            minute,
        );
        self.factor = changed.factor;
        Batched {
            changed,
            touched,
            labels,
        }
    }
}
