// Numbers from a seed, by a linear congruence modulo 2^32, and what is drawn from them: ids, rows, counts, sizes of batches, rows that are named, limits.
ghost use Rattle.std.specs.Prelude.{◌+◌, ◌≤◌, length};

use crate::pair::Three;
use reference::Booked;

pub type Ids = [u32; 65];

pub type RowList = [u32; 4200];

// A number from 0 to most, by the upper half of the next 32 bits.
pub fn draw(seed: &mut u64, most: u32) -> u32
    ensures { result ≤ most }
{
    let x = (*seed % 4294967296) * 1664525 + 1013904223;
    *seed = x;
    let v = x % 4294967296 / 65536 % (most as u64 + 1);
    if v <= most as u64 { v as u32 } else { 0 }
}

// Whether a chance of one in `most` + 1 comes up.
pub fn chance(seed: &mut u64, most: u32) -> bool {
    draw(seed, most) == 0
}

// ---- ids

// Whether id i is marked as booked, or as not booked; the mark of an id that it finds is changed.
fn found(marks: &mut Booked, i: u32, booked: bool) -> bool {
    if i < 1 || 256 < i {
        return false;
    }
    let at = (i - 1) as usize;
    if marks[at] != u8::from(booked) {
        return false;
    }
    marks[at] = u8::from(!booked);
    true
}

// The id after i, from 1 again after n.
fn after(i: u32, n: u32) -> u32 {
    if i < n { i + 1 } else { 1 }
}

// An id of 1 to n that is booked, or one that is not; any of 0 to n where there is none, and now and then.
fn pick(seed: &mut u64, marks: &mut Booked, n: u32, booked: bool) -> u32 {
    let mut i = draw(seed, n);
    if chance(seed, 31) {
        return i;
    }
    for _ in 0..n {
        i = after(i, n);
        if found(marks, i, booked) {
            break;
        }
    }
    i
}

// The first r ids of a batch: by the marks of the booked ids, those that are booked or those that are not.
pub fn write_ids(
    seed: &mut u64,
    ids: &mut Ids,
    marks: &mut Booked,
    n: u32,
    r: usize,
    booked: bool,
) {
    for id in ids.iter_mut().take(r) {
        *id = pick(seed, marks, n, booked);
    }
}

// How many columns a batch has: mostly 1 to 4, now and then any number up to 65.
pub fn size(seed: &mut u64) -> u32
    ensures { result ≤ 65 }
{
    if chance(seed, 31) {
        return draw(seed, 65);
    }
    1 + draw(seed, 3)
}

// ---- rows

// Puts a row at a place of the list, if it has that place, and gives the place after it.
fn put(rows: &mut RowList, at: usize, row: u32) -> usize
    ensures { result ≤ 4200 }
{
    if at < 4200 {
        rows[at] = row;
        return at + 1;
    }
    4200
}

// Puts a row with a chance of density in 8, and gives the place after it.
fn try_row(seed: &mut u64, rows: &mut RowList, at: usize, row: u32, density: u32) -> usize
    requires { at ≤ 4200 }
    ensures { result ≤ 4200 }
{
    if draw(seed, 7) < density {
        return put(rows, at, row);
    }
    at
}

// Writes some rows of 1 to m from a place on, each with a chance of density in 8, or else one row. It gives the place after them.
fn write_column(seed: &mut u64, rows: &mut RowList, from: usize, m: u32, density: u32) -> usize
    requires { from ≤ 4200 }
    ensures { result ≤ 4200 }
{
    let mut at = from;
    for row in 1..=m {
        at = try_row(seed, rows, at, row, density);
    }
    if at == from {
        return put(rows, at, after(draw(seed, m), m));
    }
    at
}

// How many rows were written, as a count; now and then another number.
fn count(seed: &mut u64, from: usize, to: usize) -> u32
    requires { to ≤ 4200 }
{
    if chance(seed, 63) {
        return 0;
    }
    if chance(seed, 63) {
        return 257;
    }
    if to < from {
        return 1;
    }
    (to - from) as u32
}

// Writes the rows and counts of r columns, and gives how many rows.
pub fn write_rows(
    seed: &mut u64,
    counts: &mut Ids,
    rows: &mut RowList,
    m: u32,
    density: u32,
    r: usize,
) -> usize
    ensures { result ≤ 4200 }
{
    let mut at = 0;
    for t in 0..r.min(65) {
        let to = write_column(seed, rows, at, m, density);
        counts[t] = count(seed, at, to);
        at = to;
    }
    at
}

// Now and then writes a row anew, by any number from 0 to m + 1.
pub fn damage(seed: &mut u64, rows: &mut RowList, m: u32, s: usize) {
    if !chance(seed, 7) {
        return;
    }
    if s < 1 || 4200 < s || 64 < m {
        return;
    }
    let at = draw(seed, (s - 1) as u32) as usize;
    if at < 4200 {
        rows[at] = draw(seed, m + 1);
    }
}

// ---- rows that are named

// Any rows of 1 to m.
pub fn name_rows(seed: &mut u64, list: &mut Ids, m: u32) {
    for row in list.iter_mut() {
        *row = after(draw(seed, m), m);
    }
}

// Writes one of the first r rows anew, by 0 or m + 1.
pub fn name_outside(seed: &mut u64, list: &mut Ids, m: u32, r: u32)
    requires { m ≤ 64 }
{
    if r < 1 {
        return;
    }
    let at = draw(seed, r - 1) as usize;
    if at < 65 {
        list[at] = if chance(seed, 1) { 0 } else { m + 1 };
    }
}

// The numbers from one on.
pub fn count_from(list: &mut [u32], first: u32)
    requires { first + length list.old ≤ 4294967296 }
{
    for (k, x) in list.iter_mut().enumerate() {
        *x = first + k as u32;
    }
}

// ---- limits

// Limits that rise by small steps.
fn rising(seed: &mut u64, most: u32) -> Three
    requires { most ≤ 60 }
{
    let second = 2 + draw(seed, most);
    let third = second + 1 + draw(seed, most);
    let fourth = third + 1 + draw(seed, most);
    [second, third, fourth]
}

// Limits of the grades: three zeros, others that rise, now and then any three up to 4.
pub fn limits(seed: &mut u64) -> Three {
    if chance(seed, 3) {
        return [0, 0, 0];
    }
    if chance(seed, 7) {
        return [draw(seed, 4), draw(seed, 4), draw(seed, 4)];
    }
    if chance(seed, 1) {
        return rising(seed, 6);
    }
    rising(seed, 60)
}
