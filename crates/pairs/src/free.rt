// How many records are free, on both: those that the free chains have, and what the reference's columns leave of F and its book of C.
use crate::pair::{Pair, served};
use crate::same;
use reference::Square;

// How many records a free chain has, up to 2,080; it ends where the tables have no such record.
fn chain_length(next: &[u32], head: u32) -> u32 {
    let mut at = head as usize;
    for count in 0..2080 {
        if at < 1 || next.len() < at {
            return count;
        }
        at = next[at - 1] as usize;
    }
    2080
}

// The free records of factor and book.
pub fn same_counts(p: Pair, pattern: &Square) -> bool {
    let ours = p.host;
    let next = ours.next;
    let book_next = ours.book_next;
    let record = ours.factor;
    let holds = p.holds;
    let booked = p.booked;
    let sizes = served(p.sizes);
    let used = reference::tree::sum_of_sizes(pattern, sizes.m);
    let stored = reference::columns::book_rows(&holds, &booked, sizes.m, sizes.n);
    let free = chain_length(&next, record.free);
    let book_free = chain_length(&book_next, record.book_free);
    let a = same::numbers("free records", free, sizes.f.saturating_sub(used));
    let b = same::numbers(
        "free book records",
        book_free,
        sizes.c.saturating_sub(stored),
    );
    a & b
}
