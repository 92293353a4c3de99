// Random calls: openings, batches and questions, with damaged ids, counts, rows, sizes and limits among them.
ghost use Rattle.std.specs.Prelude.{◌≤◌};

use crate::draw::{chance, draw};
use crate::pair::Pair;
use crate::{asked, draw, pair};

// ---- openings

// A size from 1 to most; now and then 0, one past what the tables serve, or one past what is allowed.
fn drawn_size(seed: &mut u64, most: u32, served: u32, allowed: u32) -> u32 {
    if chance(seed, 31) {
        return 0;
    }
    if chance(seed, 63) {
        return served;
    }
    if chance(seed, 63) {
        return allowed;
    }
    let k = draw(seed, most);
    if k < 1 { most } else { k }
}

// Factor records for m rows: 0 for the default, m and some more, one fewer than m, or one past what is allowed.
fn drawn_records(seed: &mut u64, m: u32) -> u32 {
    if chance(seed, 3) {
        return 0;
    }
    if chance(seed, 63) {
        return 1048577;
    }
    if m < 1 || 64 < m {
        return 0;
    }
    if chance(seed, 31) {
        return m - 1;
    }
    m + draw(seed, 4 * m)
}

// Book records: 1 to 2,048, mostly few; now and then 0 or one past what is allowed.
fn drawn_booked(seed: &mut u64) -> u32 {
    if chance(seed, 31) {
        return 0;
    }
    if chance(seed, 31) {
        return 262145;
    }
    if chance(seed, 1) {
        return 2048;
    }
    1 + draw(seed, 99)
}

// An opening for at most `rows` rows and `ids` ids.
pub fn open(p: Pair, seed: &mut u64, rows: u32, ids: u32) -> Pair {
    let m = drawn_size(seed, rows, 65, 4097);
    let n = drawn_size(seed, ids, 257, 16385);
    let f = drawn_records(seed, m);
    let c = drawn_booked(seed);
    let limits = draw::limits(seed);
    pair::open_with(p, m, n, f, c, limits)
}

// ---- batches

// An addition of columns that have no window.
pub fn add(p: Pair, seed: &mut u64, density: u32) -> Pair {
    let host = p.host;
    let record = host.factor;
    let mut marks = p.booked;
    let mut ids = [0u32; 65];
    let mut counts = [0u32; 65];
    let mut rows = [0u32; 4200];
    let r = draw::size(seed) as usize;
    draw::write_ids(seed, &mut ids, &mut marks, record.n, r, false);
    let s = draw::write_rows(seed, &mut counts, &mut rows, record.m, density, r);
    draw::damage(seed, &mut rows, record.m, s);
    let k = shortened(seed, r);
    let e = shortened(seed, s);
    pair::add(p, &ids[..r], &counts[..k], &rows[..e])
}

// A length, now and then one less.
fn shortened(seed: &mut u64, n: usize) -> usize
    ensures { result ≤ n }
{
    if n < 1 {
        return n;
    }
    if chance(seed, 63) { n - 1 } else { n }
}

// A removal.
pub fn remove(p: Pair, seed: &mut u64) -> Pair {
    let host = p.host;
    let record = host.factor;
    let mut marks = p.booked;
    let mut ids = [0u32; 65];
    let r = draw::size(seed) as usize;
    draw::write_ids(seed, &mut ids, &mut marks, record.n, r, true);
    pair::remove(p, &ids[..r])
}

// ---- questions

// A row from 0 to m + 1.
fn row(p: Pair, seed: &mut u64) -> u32 {
    let host = p.host;
    let record = host.factor;
    let m = record.m;
    if 64 < m {
        return 0;
    }
    draw(seed, m + 1)
}

pub fn ask(p: Pair, seed: &mut u64) -> Pair {
    let j = row(p, seed);
    let i = row(p, seed);
    let room = draw(seed, 40) as usize;
    let at = draw(seed, 8) as usize;
    match draw(seed, 4) {
        0 => asked::next_row(p, i, j),
        1 => asked::parent(p, j),
        2 => asked::path(p, j, at, room),
        3 => asked::column(p, j, at, room),
        _ => asked::check(p),
    }
}
