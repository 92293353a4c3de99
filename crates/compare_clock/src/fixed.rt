// Fixed histories with windows: the clock before any opening and with unsound limits; columns that come and go; columns outside their window in batches; equal rows
// that leave and enter; 16 by the columns that count alone, and 10, 11 and 15 by all that are booked; windows that cannot be; the last minutes.
use pairs::pair::{Pair, add, add_within, open, open_with, overwrite, remove, set_clock};
use pairs::{asked, rows};

// Before an opening the clock is refused by 1, with limits that break the rule by 6. An opening puts it back to 0.
fn refused(p: Pair) -> Pair {
    let mut q = set_clock(p, 3);
    q = open(q, 5, 8, 0, 16);
    q = set_clock(q, 3);
    q = overwrite(q, [2, 9, 3]);
    q = set_clock(q, 4);
    q = add_within(q, &[1], &[1], &[1], &[3], &[4]);
    q = overwrite(q, [2, 3, 9]);
    q = set_clock(q, 4);
    open(q, 5, 8, 0, 16)
}

// The listed example with windows: {1, 3} always, {1, 4} up to minute 5, {2, 3} from then up to minute 10.
fn listed(p: Pair) -> Pair {
    let mut q = open_with(p, 5, 8, 9, 16, [2, 3, 9]);
    q = add_within(
        q,
        &[1, 2, 3],
        &[2, 2, 2],
        &[1, 3, 1, 4, 2, 3],
        &[0, 0, 5],
        &[0, 5, 10],
    );
    q = set_clock(q, 4);
    q = set_clock(q, 5);
    q = rows::asked(q, 11);
    q = set_clock(q, 5);
    q = set_clock(q, 9);
    q = set_clock(q, 10);
    q = set_clock(q, 7);
    q = set_clock(q, 0);
    q = rows::asked(q, 12);
    set_clock(q, 4294967295)
}

// Batches of which some columns, or all, are outside their windows; a removal of such a column alone, and of all.
fn outside(p: Pair) -> Pair {
    let mut q = open(p, 6, 8, 0, 32);
    q = set_clock(q, 6);
    q = add_within(
        q,
        &[4, 2, 6],
        &[2, 3, 2],
        &[1, 3, 1, 2, 6, 2, 3],
        &[6, 7, 1],
        &[7, 9, 9],
    );
    q = add_within(q, &[1, 3], &[1, 2], &[4, 4, 5], &[0, 10], &[6, 20]);
    q = asked::check(q);
    q = set_clock(q, 8);
    q = remove(q, &[1]);
    q = remove(q, &[3, 6, 2]);
    q = set_clock(q, 6);
    remove(q, &[4])
}

// Ids are checked against all that are booked: 10 and 11. Book records hold all columns: 15.
fn booked(p: Pair) -> Pair {
    let mut q = open(p, 5, 8, 0, 4);
    q = add_within(q, &[3], &[3], &[1, 2, 5], &[7], &[9]);
    q = add(q, &[3], &[1], &[1]);
    q = add(q, &[1, 3], &[1, 1], &[1, 2]);
    q = add(q, &[1], &[2], &[1, 2]);
    q = remove(q, &[2]);
    q = remove(q, &[3]);
    q = remove(q, &[3]);
    q = set_clock(q, 8);
    add(q, &[3, 1], &[2, 2], &[1, 2, 4, 5])
}

// A column leaves as another with the same rows enters: all on its path is touched, and nothing changes.
fn equal(p: Pair) -> Pair {
    let mut q = open(p, 8, 8, 0, 32);
    q = add_within(
        q,
        &[1, 2, 3],
        &[3, 3, 3],
        &[1, 3, 5, 1, 4, 6, 1, 4, 6],
        &[1, 1, 10],
        &[4294967295, 10, 20],
    );
    q = set_clock(q, 9);
    q = set_clock(q, 10);
    q = rows::asked(q, 13);
    set_clock(q, 9)
}

// F holds either of two columns and not both: they take turns, an addition that would be live with them is refused by 16, and one outside its window is not; nor is
// the clock set to a minute at which both would count.
fn tight(p: Pair) -> Pair {
    let mut q = open(p, 8, 8, 12, 32);
    q = add_within(
        q,
        &[1, 2],
        &[3, 3],
        &[1, 2, 3, 4, 5, 6],
        &[1, 10],
        &[10, 20],
    );
    q = add_within(q, &[3], &[3], &[1, 2, 3], &[15], &[30]);
    q = set_clock(q, 5);
    q = add(q, &[4], &[4], &[1, 2, 7, 8]);
    q = set_clock(q, 10);
    q = set_clock(q, 15);
    q = set_clock(q, 19);
    q = set_clock(q, 20);
    q = set_clock(q, 15);
    q = remove(q, &[2]);
    q = set_clock(q, 15);
    rows::asked(q, 14)
}

// 21 comes after the rows of its column and before the id of the next; 7 where minutes keep no step.
fn windows(p: Pair) -> Pair {
    let mut q = open(p, 5, 8, 0, 16);
    q = add_within(q, &[1, 9], &[1, 1], &[1, 2], &[3, 0], &[3, 0]);
    q = add_within(q, &[1, 2], &[1, 1], &[6, 2], &[3, 0], &[3, 0]);
    q = add_within(q, &[1, 2], &[2, 1], &[2, 2, 1], &[3, 0], &[0, 0]);
    q = add_within(q, &[1, 2], &[1, 1], &[1, 2], &[0, 3], &[0, 0]);
    q = add_within(q, &[1, 2], &[1, 1], &[1, 2], &[0, 4], &[0, 3]);
    q = add_within(q, &[1], &[1], &[1], &[4294967295], &[4294967295]);
    q = add_within(q, &[1, 2], &[1, 1], &[1, 2], &[3], &[4, 4]);
    q = add_within(q, &[1, 2], &[1, 1], &[1, 2], &[3, 3], &[4]);
    q = add_within(q, &[1], &[1], &[1], &[3, 3], &[4]);
    q = add_within(q, &[1], &[1], &[1], &[3], &[4, 4]);
    add_within(q, &[1, 2], &[1, 1], &[1, 2], &[0, 0], &[1, 0])
}

// The last minutes: a window that ends with the last minute holds the one before it; at the last no column with a window counts.
fn last(p: Pair) -> Pair {
    let mut q = open(p, 5, 8, 0, 16);
    q = add_within(
        q,
        &[1, 2, 3],
        &[2, 2, 2],
        &[1, 3, 1, 4, 2, 3],
        &[4294967294, 0, 0],
        &[4294967295, 4294967295, 0],
    );
    q = set_clock(q, 4294967293);
    q = set_clock(q, 4294967294);
    q = set_clock(q, 4294967295);
    set_clock(q, 0)
}

pub fn all(p: Pair) -> Pair {
    let mut q = refused(p);
    q = listed(q);
    q = outside(q);
    q = booked(q);
    q = equal(q);
    q = tight(q);
    q = windows(q);
    last(q)
}
