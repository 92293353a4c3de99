// Fixed histories: the listed example with its refusals and questions, the removal in which an entry stays, paths that merge, batches of 64 columns, and F
// by default.
ghost use Rattle.std.specs.Prelude.{◌≤◌};

use pairs::draw::count_from;
use pairs::pair::{Pair, add, open, remove};
use pairs::{asked, rows};

// Calls before any opening are refused by 1; then openings are refused by 1 to 5.
fn unopened(p: Pair) -> Pair {
    let mut q = add(p, &[1], &[1], &[1]);
    q = remove(q, &[1]);
    q = asked::path(q, 1, 0, 8);
    q = rows::asked(q, 1);
    q = open(q, 0, 1, 0, 1);
    q = open(q, 4097, 1, 0, 1);
    q = open(q, 1, 16385, 0, 0);
    q = open(q, 5, 1, 4, 0);
    q = open(q, 1, 1, 0, 0);
    q = open(q, 65, 1, 0, 1);
    open(q, 1, 257, 0, 1)
}

// The listed example.
fn listed(p: Pair) -> Pair {
    let mut q = open(p, 5, 8, 9, 16);
    q = add(q, &[1], &[2], &[1, 3]);
    q = add(q, &[2], &[2], &[1, 4]);
    add(q, &[3], &[2], &[2, 3])
}

// Its questions, with 7, 17 and 18 among them.
fn questions(p: Pair) -> Pair {
    let mut q = asked::path(p, 1, 0, 3);
    q = asked::path(q, 1, 1, 3);
    q = asked::column(q, 1, 2, 8);
    q = asked::column(q, 1, 3, 8);
    q = asked::column(q, 6, 0, 8);
    q = asked::parent(q, 0);
    q = asked::next_row(q, 4, 1);
    q = asked::next_row(q, 4, 6);
    q = rows::asked(q, 2);
    asked::check(q)
}

// 7 to 16 of an addition to it.
fn additions(p: Pair) -> Pair {
    let mut q = add(p, &[4, 5], &[1], &[1, 2]);
    q = add(q, &[4, 9], &[1, 1], &[1, 2]);
    q = add(q, &[4, 4], &[1, 1], &[1, 2]);
    q = add(q, &[4, 1], &[1, 1], &[1, 2]);
    q = add(q, &[4, 5], &[1, 2], &[1, 2]);
    q = add(q, &[4, 5], &[1, 1], &[1, 6]);
    q = add(q, &[4], &[2], &[4, 4]);
    q = add(q, &[4], &[1], &[4, 5]);
    q = add(
        q,
        &[4, 5, 6],
        &[3, 4, 4],
        &[3, 4, 5, 1, 3, 4, 5, 2, 3, 4, 5],
    );
    add(q, &[4], &[2], &[1, 5])
}

// 8, 9 and 11 of a removal from it, then every column is removed.
fn removals(p: Pair) -> Pair {
    let mut q = remove(p, &[1, 9]);
    q = remove(q, &[3, 3]);
    q = remove(q, &[1, 4]);
    remove(q, &[3, 1, 2])
}

// Row 4 in column 3 stays when {1, 2, 4} leaves.
fn staying(p: Pair) -> Pair {
    let mut q = open(p, 4, 2, 10, 6);
    q = add(q, &[1, 2], &[3, 3], &[1, 3, 4, 1, 2, 4]);
    q = rows::asked(q, 3);
    q = remove(q, &[2]);
    q = rows::asked(q, 4);
    remove(q, &[1])
}

fn merging(p: Pair) -> Pair {
    let mut q = open(p, 9, 6, 0, 32);
    q = add(
        q,
        &[5, 1, 3, 2],
        &[3, 2, 3, 2],
        &[1, 4, 7, 2, 4, 3, 5, 8, 6, 9],
    );
    q = add(q, &[4, 6], &[2, 2], &[4, 6, 5, 7]);
    q = rows::asked(q, 5);
    q = remove(q, &[6, 1, 5]);
    q = rows::asked(q, 6);
    remove(q, &[2, 4, 3])
}

// ---- 64 columns

// Every second id from the first one on.
fn write_half(list: &mut [u32; 32], first: u32)
    requires { first ≤ 2 }
{
    for (k, id) in list.iter_mut().enumerate() {
        *id = 2 * k as u32 + first;
    }
}

// The rows k and k + 1 for each k below 64, then row 64.
fn write_rows(list: &mut [u32; 127]) {
    for (k, row) in list.iter_mut().enumerate() {
        *row = (k as u32 + 1) / 2 + 1;
    }
}

// 64 columns in one batch: {k, k + 1} for each k below 64, and {64}.
fn add_many(p: Pair) -> Pair {
    let mut ids = [0u32; 64];
    let mut rows = [0u32; 127];
    let mut counts = [2u32; 64];
    counts[63] = 1;
    count_from(&mut ids, 1);
    write_rows(&mut rows);
    add(p, &ids, &counts, &rows)
}

// Half of them, from the first id on.
fn remove_half(p: Pair, first: u32) -> Pair
    requires { first ≤ 2 }
{
    let mut ids = [0u32; 32];
    write_half(&mut ids, first);
    remove(p, &ids)
}

// All are added, then removed by halves.
fn many(p: Pair) -> Pair {
    let mut q = open(p, 64, 64, 0, 128);
    q = add_many(q);
    q = rows::asked(q, 7);
    q = remove_half(q, 2);
    q = rows::asked(q, 8);
    remove_half(q, 1)
}

// ---- F by default

// One column with the rows 1 to m of a list, which makes all entries that m rows can have.
fn full(p: Pair, m: u32, f: u32, list: &[u32]) -> Pair {
    let Some(rows) = list.get(..m as usize) else {
        return p;
    };
    let q = open(p, m, 1, f, m);
    add(q, &[1], &[m], rows)
}

// F = 0 is just enough for the 2,016 entries of 63 rows, and 32 too few for those of 64 rows; an F that is named is kept.
fn filled(p: Pair, list: &[u32; 64]) -> Pair {
    let mut q = full(p, 63, 0, list);
    q = rows::asked(q, 10);
    q = full(q, 64, 0, list);
    q = full(q, 63, 1008, list);
    full(q, 63, 2016, list)
}

fn by_default(p: Pair) -> Pair {
    let mut list = [0u32; 64];
    count_from(&mut list, 1);
    filled(p, &list)
}

pub fn all(p: Pair) -> Pair {
    let mut q = unopened(p);
    q = listed(q);
    q = questions(q);
    q = additions(q);
    q = removals(q);
    q = staying(q);
    q = merging(q);
    q = many(q);
    by_default(q)
}
