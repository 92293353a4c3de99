// A factor's record by value, as functions inside the library hand it on: sizes, free heads, limits and clock in one argument. `factor` has the record of hosts.
#![tactic(auto)]

use pool::Rec;

// Sizes m, n, F and C; the free heads of L and of the book; from so many entries on a grade is 2, 3 and 4; the minute at which the clock stands.
#[derive(Clone, Copy)]
pub struct State {
    pub m: u32,
    pub n: u32,
    pub f: u32,
    pub c: u32,
    pub free: Rec,
    pub book_free: Rec,
    pub grade2: u32,
    pub grade3: u32,
    pub grade4: u32,
    pub clock: u32,
}

impl State {
    // The largest m.
    pub const MOST_ROWS: u32 = 4096;
    // The largest n.
    pub const MOST_IDS: u32 = 16384;
    // The largest F.
    pub const MOST_RECORDS: u32 = 1048576;
    // The largest C.
    pub const MOST_BOOKED: u32 = 262144;
}
