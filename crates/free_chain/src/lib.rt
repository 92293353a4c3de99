// The records of a pool that no column has: how many have row 0, by a pass in order, and whether the free chain has just so many, for any contents.
#![tactic(auto)]

ghost use Rattle.std.specs.Prelude.{◌≤◌, ◌≡◌, length};
ghost use Rattle.lists.specs.Lists.{Decides, times};
ghost use Rattle.pool.specs.Free.{FreeHas, zero_pairs};
ghost use Rattle.free_chain.specs.Pieces.{OnePool};

use pool::Rec;

mod pieces;

// Places that are counted at once: so few that 16 bits count them, and many are compared in one instruction.
const BLOCK: usize = 4096;

// How many of at most 65,535 rows are 0.
fn zeros_of(rows: &[u16]) -> u16
    requires { length rows.now ≤ 65535 }
    ensures { result ≡ times 0 rows.now }
{
    let mut n: u16 = 0;
    for row in rows {
        if *row == 0 {
            n += 1;
        }
    }
    n
}

// How many rows are 0.
pub fn zeros(rows: &[u16]) -> usize
    ensures { result ≡ times 0 rows.now }
{
    let mut n: usize = 0;
    for block in rows.chunks(BLOCK) {
        n += zeros_of(block) as usize;
    }
    n
}

// How many of at most 65,535 records have row and multiplicity 0.
fn zero_pairs_of(rows: &[u16], counts: &[u16]) -> u16
    requires { (length rows.now ≤ 65535) × (length counts.now ≡ length rows.now) }
    ensures { result ≡ zero_pairs rows.now counts.now }
{
    let mut pairs: u16 = 0;
    for (row, count) in rows.iter().zip(counts) {
        if (*row == 0) & (*count == 0) {
            pairs += 1;
        }
    }
    pairs
}

// How many records have row and multiplicity 0.
pub fn zero_pairs(rows: &[u16], counts: &[u16]) -> usize
    requires { length counts.now ≡ length rows.now }
    ensures { result ≡ zero_pairs rows.now counts.now }
{
    let mut n: usize = 0;
    for (block, beside) in rows.chunks(BLOCK).zip(counts.chunks(BLOCK)) {
        n += zero_pairs_of(block, beside) as usize;
    }
    n
}

// Walks the free chain record by record: it must end after k of them, the last with row 0.
fn walk(rows: &[u16], next: &[u32], free: Rec, k: usize) -> bool
    requires { OnePool rows.now next.now }
    ensures { Decides (FreeHas rows.now next.now free.0 k) result }
{
    let mut r = free.0;
    let mut last: u32 = 0;
    for _ in 0..k {
        if r == 0 || next.len() < r as usize {
            return false;
        }
        last = r;
        r = next[(r - 1) as usize];
    }
    r == 0 && (last == 0 || rows[(last - 1) as usize] == 0)
}

// Whether the free chain ends after k records, the last with row 0. In pieces, if they show it; otherwise record by record. Scratch may hold anything, before
// and after.
pub fn has(rows: &[u16], next: &[u32], scratch: &mut [u32], free: Rec, k: usize) -> bool
    requires { OnePool rows.now next.now }
    ensures { Decides (FreeHas rows.now next.now free.0 k) result }
{
    pieces::reach(rows, next, scratch, free, k) || walk(rows, next, free, k)
}
