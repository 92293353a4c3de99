// Random histories in which more columns than a batch can have leave and enter at once: 256 columns of two rows, each with a window that holds minute 4 or minute 10
// and not both. In some of them F is too small for one of these minutes, or for both.
ghost use Rattle.std.specs.Prelude.{◌≤◌};

use crate::{large, minutes};
use pairs::draw::{chance, count_from, draw};
use pairs::pair;
use pairs::pair::{Pair, set_clock};

// Adds 64 columns from an id on.
fn add(p: Pair, seed: &mut u64, from: u32) -> Pair
    requires { from ≤ 256 }
{
    let mut ids = [0u32; 64];
    let mut list = [0u32; 128];
    let mut firsts = [0u32; 66];
    let mut seconds = [0u32; 66];
    count_from(&mut ids, from);
    large::write_rows(&mut list, draw(seed, 40), 1 + draw(seed, 23));
    minutes::write(seed, &mut firsts, &mut seconds, true);
    large::lists_added(p, &ids, &list, &firsts, &seconds, 64)
}

// Factor records: enough for all, or few.
fn records(seed: &mut u64) -> u32 {
    if chance(seed, 1) {
        2080
    } else {
        100 + draw(seed, 200)
    }
}

// All columns.
fn added(p: Pair, seed: &mut u64) -> Pair {
    let mut q = pair::open(p, 64, 256, records(seed), 512);
    q = add(q, seed, 1);
    q = add(q, seed, 65);
    q = add(q, seed, 129);
    add(q, seed, 193)
}

// Between the minutes at which half of the columns count, and to others.
fn moved(p: Pair, seed: &mut u64) -> Pair {
    let mut q = set_clock(p, 4);
    q = set_clock(q, 10);
    q = set_clock(q, draw(seed, 14));
    q = set_clock(q, 4);
    q = set_clock(q, draw(seed, 14));
    q = set_clock(q, 10);
    set_clock(q, 4)
}

// As many histories.
pub fn histories(p: Pair, from: u64, count: u32) -> Pair {
    let mut seed = from;
    let mut q = p;
    for _ in 0..count {
        q = added(q, &mut seed);
        q = moved(q, &mut seed);
    }
    q
}
