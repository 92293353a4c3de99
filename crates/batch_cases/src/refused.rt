// Batches that are refused, by each number from 7 to 16, on the listed example of three columns: ids 1 to 3 are live, m is 5, n is 8. Openings
// refused by 20; questions about the paths of some rows refused by 7.
use crate::lines::title;
use crate::shown::{add, common, open, open_with, remove, show};
use case_tables::Host;

// 7: no column, more than 64, counts that keep no step.
fn shapes(before: Host) -> Host {
    title("7");
    let mut h = before;
    let many = [4u32; 65];
    let all = &many[..];
    let none = &all[..0];
    h = add(h, none, none, none);
    h = add(h, all, all, all);
    h = add(h, &[4, 5], &[1], &[1, 2]);
    h = add(h, &[4], &[1, 1], &[1, 2]);
    h = remove(h, none);
    h = remove(h, all);
    h
}

// 7 by a question: no row, more than 64, these also outside 1 to m; and not by 64.
fn named(h: Host) {
    title("7 of a question");
    let many = [4u32; 65];
    let outside = [6u32; 65];
    let all = &many[..];
    common(h, &all[..0]);
    common(h, all);
    common(h, &outside);
    common(h, &all[..64]);
}

// 8, 9 and 10 by an addition, at each position.
fn ids_to_add(before: Host) -> Host {
    title("8, 9, 10");
    let mut h = before;
    h = add(h, &[0, 4], &[1, 1], &[1, 2]);
    h = add(h, &[4, 5, 9], &[1, 1, 1], &[1, 2, 3]);
    h = add(h, &[4, 5, 4], &[1, 1, 1], &[1, 2, 3]);
    h = add(h, &[4, 5, 3], &[1, 1, 1], &[1, 2, 3]);
    h = add(h, &[2, 2], &[1, 1], &[1, 2]);
    h
}

// 8, 9 and 11 by a removal.
fn ids_to_remove(before: Host) -> Host {
    title("8, 9, 11");
    let mut h = before;
    h = remove(h, &[1, 0]);
    h = remove(h, &[1, 2, 9]);
    h = remove(h, &[3, 3]);
    h = remove(h, &[1, 2, 1]);
    h = remove(h, &[1, 4]);
    h = remove(h, &[4, 4]);
    h
}

// 12 by a count of 0, of 257, by too few rows, and, after all columns, by rows left over.
fn counts(before: Host) -> Host {
    title("12");
    let mut h = before;
    h = add(h, &[4, 5], &[1, 0], &[1, 2]);
    h = add(h, &[4, 5], &[257, 1], &[1, 2]);
    h = add(h, &[4, 5], &[1, 2], &[1, 2]);
    h = add(h, &[4, 5], &[1, 1], &[1, 2, 3]);
    h
}

// 13 by row 0 and by row 6; 14 by a row twice and by a lower row.
fn rows(before: Host) -> Host {
    title("13, 14");
    let mut h = before;
    h = add(h, &[4, 5], &[1, 2], &[1, 0, 2]);
    h = add(h, &[4, 5], &[1, 2], &[1, 2, 6]);
    h = add(h, &[4], &[2], &[4, 4]);
    h = add(h, &[4, 5], &[2, 2], &[1, 2, 5, 4]);
    h
}

// The first that applies: a row of position 1 before the id of position 2, an id before its count, a row outside before one not above.
fn first(before: Host) -> Host {
    title("the first that applies");
    let mut h = before;
    h = add(h, &[4, 9], &[1, 1], &[6, 1]);
    h = add(h, &[4, 1], &[1, 0], &[1, 2]);
    h = add(h, &[4], &[2], &[4, 0]);
    h = add(h, &[4, 5], &[1, 1], &[1, 6, 7]);
    h
}

// 15 at one row more than the book has records for, and not at as many.
fn full() {
    title("15");
    let h = open(5, 8, 0, 6);
    let one = add(h, &[1], &[2], &[1, 3]);
    add(one, &[2, 3], &[3, 2], &[1, 3, 4, 2, 3]);
    add(one, &[2, 3], &[2, 2], &[1, 4, 2, 3]);
}

// 16 at one entry more than there are factor records, and not at as many: {1, 2, 3} gives 8 entries, {4, 5} one more.
fn filled() {
    title("16");
    let h = open(5, 8, 8, 16);
    let one = add(h, &[1], &[3], &[1, 2, 3]);
    show(add(one, &[2], &[2], &[4, 5]));
}

// 20 by a first limit below 2 and by limits that do not rise; 4 comes before it, 5 after it.
fn limits() {
    title("20");
    open_with(5, 8, 9, 16, 1, 2, 3);
    open_with(5, 8, 9, 16, 2, 2, 3);
    open_with(5, 8, 9, 16, 2, 3, 3);
    open_with(5, 8, 9, 16, 2, 3, 2);
    open_with(5, 8, 9, 16, 0, 0, 7);
    open_with(5, 8, 9, 0, 0, 0, 7);
    open_with(65, 8, 0, 16, 0, 0, 7);
    open_with(65, 8, 0, 16, 2, 3, 4);
}

pub fn all(before: Host) {
    let mut h = shapes(before);
    named(h);
    h = ids_to_add(h);
    h = ids_to_remove(h);
    h = counts(h);
    h = rows(h);
    h = first(h);
    title("after all these");
    show(h);
    full();
    filled();
    limits();
}
