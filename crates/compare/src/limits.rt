// Fixed histories with limits of the grades: batches that they grade, openings that 20 refuses, limits that serve on, and records with unsound ones.
use pairs::pair::{Pair, Three, add, open, open_with, overwrite, remove};
use pairs::{asked, rows};

// ---- batches

// Batches of 1 to 4 entries: a column of one row has one.
fn few(p: Pair) -> Pair {
    let mut q = add(p, &[1], &[1], &[1]);
    q = add(q, &[2, 3], &[1, 1], &[2, 3]);
    q = remove(q, &[1, 2, 3]);
    q = add(q, &[1, 2, 3, 4], &[1, 1, 1, 1], &[1, 2, 3, 4]);
    remove(q, &[1, 2, 3, 4])
}

// Batches of 10 and 15 entries: {1, 2, 3, 4} fills 10, and with {1, 5} it fills 15. Their removal has 15 too, though it leaves 5.
fn more(p: Pair) -> Pair {
    let mut q = add(p, &[1], &[4], &[1, 2, 3, 4]);
    q = add(q, &[2], &[2], &[1, 5]);
    remove(q, &[2, 1])
}

// A factor of 5 rows opened with the limits, and these batches.
fn graded(p: Pair, three: Three) -> Pair {
    let mut q = open_with(p, 5, 8, 0, 16, three);
    q = few(q);
    more(q)
}

// ---- openings

// Limits that keep the rule, beyond all entries too, then the old ones again.
fn accepted(p: Pair) -> Pair {
    let mut q = graded(p, [0, 0, 0]);
    q = graded(q, [2, 3, 4]);
    q = graded(q, [2, 3, 4294967295]);
    q = graded(q, [3, 10, 15]);
    q = graded(q, [4, 11, 16]);
    q = graded(q, [1048577, 1048578, 1048579]);
    q = graded(q, [4294967293, 4294967294, 4294967295]);
    graded(q, [0, 0, 0])
}

// An opening by good sizes.
fn limited(p: Pair, three: Three) -> Pair {
    open_with(p, 4, 4, 0, 8, three)
}

// Limits that break the rule.
fn refused(p: Pair) -> Pair {
    let mut q = limited(p, [0, 1, 2]);
    q = limited(q, [0, 2, 3]);
    q = limited(q, [0, 0, 7]);
    q = limited(q, [2, 0, 0]);
    q = limited(q, [1, 2, 3]);
    q = limited(q, [2, 2, 3]);
    q = limited(q, [2, 3, 2]);
    q = limited(q, [2, 3, 3]);
    q = limited(q, [4, 3, 2]);
    q = limited(q, [256, 4096, 4096]);
    limited(q, [4294967295, 4294967295, 4294967295])
}

// With such limits 1 to 4 come before 20, and 20 before 5; 5 stays with good ones.
fn ordered(p: Pair) -> Pair {
    let mut q = open_with(p, 0, 1, 0, 1, [1, 2, 3]);
    q = open_with(q, 1, 16385, 0, 1, [2, 2, 3]);
    q = open_with(q, 5, 1, 4, 1, [2, 3, 3]);
    q = open_with(q, 1, 1, 0, 0, [0, 0, 7]);
    q = open_with(q, 65, 1, 0, 1, [1, 2, 3]);
    q = open_with(q, 1, 257, 0, 1, [2, 3, 2]);
    q = open_with(q, 65, 1, 0, 1, [2, 3, 4]);
    open_with(q, 1, 257, 0, 1, [0, 0, 0])
}

// After refused openings the limits from before serve on, and columns too; after an opening with zeros the old ones do.
fn kept(p: Pair) -> Pair {
    let mut q = open_with(p, 5, 8, 0, 16, [2, 3, 9]);
    q = add(q, &[5], &[1], &[5]);
    q = refused(q);
    q = ordered(q);
    q = few(q);
    q = more(q);
    q = open(q, 5, 8, 0, 16);
    q = few(q);
    more(q)
}

// ---- records that no opening leaves

// Every call, with a repeated id and rows out of range among them.
fn every_call(p: Pair) -> Pair {
    let mut q = add(p, &[4, 5], &[1, 1], &[1, 2]);
    q = remove(q, &[4, 4]);
    q = remove(q, &[4, 5]);
    q = asked::next_row(q, 3, 1);
    q = asked::next_row(q, 6, 1);
    q = asked::parent(q, 1);
    q = asked::path(q, 1, 0, 8);
    q = asked::column(q, 1, 0, 1);
    q = rows::asked(q, 9);
    asked::check(q)
}

// Every call, once the limits are written over those of the record.
fn overwritten(p: Pair, three: Three) -> Pair {
    every_call(overwrite(p, three))
}

// Limits that break the rule are unsound; good ones serve.
fn unsound(p: Pair) -> Pair {
    let mut q = open_with(p, 5, 8, 0, 16, [2, 3, 9]);
    q = add(q, &[1], &[2], &[1, 3]);
    q = overwritten(q, [0, 0, 0]);
    q = overwritten(q, [1, 3, 9]);
    q = overwritten(q, [3, 3, 9]);
    q = overwritten(q, [2, 9, 3]);
    q = overwritten(q, [2, 3, 4]);
    open(q, 5, 8, 0, 16)
}

pub fn all(p: Pair) -> Pair {
    let mut q = accepted(p);
    q = kept(q);
    unsound(q)
}
