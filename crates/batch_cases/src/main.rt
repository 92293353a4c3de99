// Batches through the factor's public entries, as lines: the document's instances, grades by other limits, batches whose paths merge, a refusal of each
// number, questions, columns with windows as the clock goes, and 64 columns of 256 rows each in a factor of 4,096 rows. A batch or a change of the clock gives
// `ok touched entries grade`, then its touched columns and labels, or `no number position`.
#![tactic(auto)]

mod large;
mod large_rows;
mod large_shown;
mod large_tables;
mod lines;
mod out;
mod refused;
mod shown;
mod windowed;

use case_tables::Host;
use lines::title;
use shown::{add, open, open_with, remove, show};

// ---- instances

// 1: fresh, one row. 6: {5} alone.
fn small() {
    title("1");
    show(open(1, 1, 1, 1));
    title("6");
    let h = open(5, 8, 9, 16);
    show(add(h, &[1], &[1], &[5]));
}

// 2: the listed example.
fn listed() -> Host {
    let h = open(5, 8, 9, 16);
    let one = add(h, &[1], &[2], &[1, 3]);
    let two = add(one, &[2], &[2], &[1, 4]);
    add(two, &[3], &[2], &[2, 3])
}

// The three columns of the listed example as one batch.
fn batch(h: Host) -> Host {
    add(h, &[1, 2, 3], &[2, 2, 2], &[1, 3, 1, 4, 2, 3])
}

// 3: one batch. 4: then remove 2. 7: with one factor record fewer.
fn batches() {
    title("3");
    let all = batch(open(5, 8, 9, 16));
    show(all);
    title("4");
    show(remove(all, &[2]));
    title("7");
    show(batch(open(5, 8, 8, 16)));
}

// 5: one column twice under two ids, one removed. It enters again: either way column 3 counts too, though the batch changes nothing in it.
fn twice() {
    title("5");
    let h = open(5, 8, 9, 16);
    let both = add(h, &[1, 2], &[2, 2], &[1, 3, 1, 3]);
    let one = remove(both, &[1]);
    show(one);
    add(one, &[1], &[2], &[1, 3]);
}

// 8: 255 entries, and 256: {1 .. 22} fills 253, and each column of one row adds 1.
fn grades() {
    title("8");
    let rows = [
        1, 2, 3, 4, 5, 6, 7, 8, 9, 10, 11, 12, 13, 14, 15, 16, 17, 18, 19, 20, 21, 22, 23, 24, 25,
    ];
    let h = open(25, 8, 0, 32);
    add(h, &[1, 2, 3], &[22, 1, 1], &rows[..24]);
    add(h, &[1, 2, 3, 4], &[22, 1, 1, 1], &rows);
}

// Grades by the limits 2, 3 and 9, of 1, 2, 3, 8 and 9 entries: {1, 2, 3} fills 6, {4, 5} adds 3, and a column of one row 1.
fn limits() {
    title("limits 2 3 9");
    let h = open_with(5, 8, 0, 16, 2, 3, 9);
    add(h, &[1], &[1], &[1]);
    add(h, &[1, 2], &[1, 1], &[1, 2]);
    add(h, &[1, 2, 3], &[1, 1, 1], &[1, 2, 3]);
    add(h, &[1, 2, 3], &[3, 1, 1], &[1, 2, 3, 4, 5]);
    add(h, &[1, 2], &[3, 2], &[1, 2, 3, 4, 5]);
}

// Grades of 4's removal, whose columns have 6 entries before it and 4 after it, and of the same column as an addition: both by 6. Then of all columns, which
// have 8 entries before and 4 after.
fn limits_removed() {
    title("limits 2 5 7");
    let all = batch(open_with(5, 8, 0, 16, 2, 5, 7));
    let two = remove(all, &[2]);
    add(two, &[2], &[2], &[1, 4]);
    remove(all, &[1, 2, 3]);
}

// Paths and columns in full, in a list too short, from a place past it, and of no row; parents.
fn asked(h: Host) {
    shown::path(h, 0, 1);
    shown::path(h, 3, 1);
    shown::path(h, 4, 1);
    shown::path(h, 7, 5);
    shown::path(h, 0, 6);
    shown::column(h, 0, 1);
    shown::column(h, 1, 1);
    shown::column(h, 2, 3);
    shown::column(h, 6, 5);
    shown::column(h, 0, 0);
    shown::parent(h, 1);
    shown::parent(h, 3);
    shown::parent(h, 5);
    shown::parent(h, 6);
}

// Rows that stand, absent ones with a later one, one below the diagonal, columns that end before, the row above the diagonal of each column but the last, and
// rows and columns outside 1 to m.
fn next_rows(h: Host) {
    shown::next_row(h, 1, 1);
    shown::next_row(h, 3, 1);
    shown::next_row(h, 4, 1);
    shown::next_row(h, 5, 5);
    shown::next_row(h, 1, 3);
    shown::next_row(h, 4, 2);
    shown::next_row(h, 5, 1);
    shown::next_row(h, 2, 1);
    shown::next_row(h, 3, 2);
    shown::next_row(h, 4, 3);
    shown::next_row(h, 5, 4);
    shown::next_row(h, 0, 5);
    shown::next_row(h, 6, 1);
    shown::next_row(h, 5, 6);
    shown::next_row(h, 1, 0);
}

// The columns that meet each row, in full, in a list too short, from a place past it, and of no row.
fn met(h: Host) {
    shown::meets(h, 0, 1);
    shown::meets(h, 1, 2);
    shown::meets(h, 3, 3);
    shown::meets(h, 2, 4);
    shown::meets(h, 5, 5);
    shown::meets(h, 4, 3);
    shown::meets(h, 6, 5);
    shown::meets(h, 7, 1);
    shown::meets(h, 0, 0);
    shown::meets(h, 7, 6);
}

// The smallest row on the paths of two rows, of three, of one, of one twice, of rows whose paths do not join, and with a row outside 1 to m.
fn joined(h: Host) {
    shown::common(h, &[1, 2]);
    shown::common(h, &[1, 2, 4]);
    shown::common(h, &[2]);
    shown::common(h, &[2, 2]);
    shown::common(h, &[4, 1]);
    shown::common(h, &[1, 5]);
    shown::common(h, &[0]);
    shown::common(h, &[1, 5, 6]);
}

// 2 and 9: the listed example with its questions, a removal that repeats an id, rows 4 4, and every column removed.
fn emptied() {
    title("2");
    let h = listed();
    show(h);
    title("questions");
    asked(h);
    title("next rows");
    next_rows(h);
    title("questions about rows");
    met(h);
    joined(h);
    title("9");
    remove(h, &[3, 3]);
    add(h, &[4], &[2], &[4, 4]);
    show(remove(h, &[3, 1, 2]));
}

// ---- more batches

// Row 4 in column 3 stays when {1, 2, 4} leaves, though its one child is another afterwards: its record is the same.
fn staying() {
    title("an entry that stays");
    let h = open(4, 2, 10, 6);
    let both = add(h, &[1, 2], &[3, 3], &[1, 3, 4, 1, 2, 4]);
    show(both);
    let left = remove(both, &[2]);
    show(left);
    if shown::second_record(left, 3) == shown::second_record(both, 3) {
        lines::text("the same record\n");
    } else {
        lines::text("another record\n");
    }
}

// Paths that merge, of columns added in one batch and removed in two.
fn merging() {
    title("paths that merge");
    let h = open(9, 6, 0, 32);
    let first = add(
        h,
        &[5, 1, 3, 2],
        &[3, 2, 3, 2],
        &[1, 4, 7, 2, 4, 3, 5, 8, 6, 9],
    );
    show(first);
    let second = add(first, &[4, 6], &[2, 2], &[4, 6, 5, 7]);
    show(second);
    let third = remove(second, &[6, 1, 5]);
    show(third);
    show(remove(third, &[2, 4, 3]));
}

fn main() {
    small();
    batches();
    twice();
    grades();
    limits();
    limits_removed();
    emptied();
    staying();
    merging();
    refused::all(listed());
    windowed::all();
    large::run();
}
