// Columns with windows, in batches and as the clock goes: those outside keep their positions and their ids, and touch nothing.
use crate::lines;
use crate::lines::title;
use crate::shown::{add, add_within, open, open_with, remove, set_clock, show};
use case_tables::Host;

// The columns of the listed example as one batch, the second from minute 7 up to 9 alone.
fn three(h: Host) -> Host {
    add_within(
        h,
        &[1, 2, 3],
        &[2, 2, 2],
        &[1, 3, 1, 4, 2, 3],
        &[0, 7, 6],
        &[0, 9, 9],
    )
}

// At minute 6 the second of three columns is outside its window: it has no path, and the third keeps label 3. Its id is taken, and it leaves without a trace.
fn second_outside() {
    title("the second of three outside its window");
    let h = set_clock(open(5, 8, 9, 16), 6);
    let all = three(h);
    show(all);
    add(all, &[2], &[1], &[1]);
    let gone = remove(all, &[2]);
    show(gone);
    set_clock(gone, 7);
    title("its minute comes");
    show(set_clock(all, 7));
}

// A batch with every column outside touches nothing: the lists are as lent.
fn all_outside() {
    title("all outside their windows");
    let mut h = three(set_clock(open_with(5, 8, 9, 16, 2, 3, 9), 6));
    let b = h.add(&[4, 5], &[1, 2], &[1, 2, 3], &[0, 7], &[6, 4294967295]);
    lines::tell(&b);
    lines::tell_lent(&b);
    let r = h.remove(&[5, 4]);
    lines::tell(&r);
    lines::tell_lent(&r);
}

// 21 of a window whose second minute is not later than its first: after 13 and 14 of its column, before 8 of the next and before 12 of rows left over. 7 where
// minutes keep no step with the ids.
fn broken() {
    title("21");
    let h = open(5, 8, 9, 16);
    add_within(h, &[4, 9], &[1, 1], &[1, 2], &[3, 0], &[3, 0]);
    add_within(h, &[4, 9], &[1, 1], &[1, 2], &[3, 0], &[4, 0]);
    add_within(h, &[4, 5], &[1, 1], &[6, 2], &[3, 0], &[3, 0]);
    add_within(h, &[4, 5], &[2, 1], &[2, 2, 1], &[3, 0], &[3, 0]);
    add_within(h, &[4, 5], &[1, 1], &[1, 2], &[0, 3], &[0, 0]);
    add_within(h, &[4], &[1], &[1, 2], &[3], &[2]);
    add_within(h, &[4], &[1], &[1], &[4294967295], &[4294967295]);
    add_within(h, &[4, 5], &[1, 1], &[1, 2], &[0], &[0, 0]);
    add_within(h, &[4], &[1], &[1], &[0], &[0, 0]);
}

// No window, and one that begins at minute 0: both count at 0, the second up to minute 4 and again when the clock goes back.
fn from_zero() {
    title("windows 0 0 and 0 5");
    let h = add_within(
        open(5, 8, 9, 16),
        &[1, 2],
        &[2, 2],
        &[1, 3, 1, 4],
        &[0, 0],
        &[0, 5],
    );
    let still = set_clock(h, 4);
    let left = set_clock(still, 5);
    show(left);
    set_clock(left, 4294967295);
    set_clock(left, 0);
}

// At minute 10 a column leaves as another with the same rows enters: its path is touched, and no column changes.
fn equal_rows() {
    title("equal rows leave and enter");
    let h = add_within(
        open(6, 8, 0, 16),
        &[1, 2, 3],
        &[3, 3, 2],
        &[1, 4, 6, 1, 4, 6, 1, 5],
        &[1, 10, 0],
        &[10, 20, 0],
    );
    let before = set_clock(h, 9);
    let after = set_clock(before, 10);
    show(after);
    set_clock(after, 9);
}

// F holds {1, 2, 3} and its like in other rows, not both: at minute 5 both would count, and the clock stays.
fn too_many() {
    title("16 of the clock");
    let h = add_within(
        open(6, 8, 9, 16),
        &[1, 2],
        &[3, 3],
        &[1, 2, 3, 4, 5, 6],
        &[0, 5],
        &[6, 9],
    );
    let same = set_clock(h, 5);
    show(same);
    set_clock(same, 6);
}

pub fn all() {
    second_outside();
    all_outside();
    broken();
    from_zero();
    equal_rows();
    too_many();
}
