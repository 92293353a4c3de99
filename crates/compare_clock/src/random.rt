// Random histories: openings, additions with windows, removals, changes of the clock, questions.
ghost use Rattle.std.specs.Prelude.{◌≤◌};

use crate::lent::add_first;
use crate::minutes;
use pairs::draw::{Ids, RowList, chance, draw};
use pairs::drawn::{ask, open, remove};
use pairs::pair::Pair;
use pairs::{draw, histories, pair};

// ---- additions

fn add(p: Pair, seed: &mut u64, density: u32) -> Pair {
    let host = p.host;
    let record = host.factor;
    let mut marks = p.booked;
    let mut ids = [0u32; 65];
    let mut counts = [0u32; 65];
    let mut rows = [0u32; 4200];
    let r = draw::size(seed);
    draw::write_ids(seed, &mut ids, &mut marks, record.n, r as usize, false);
    let s = draw::write_rows(seed, &mut counts, &mut rows, record.m, density, r as usize);
    draw::damage(seed, &mut rows, record.m, s);
    add_drawn(p, seed, &ids, &counts, &rows, r, s)
}

// Adds the first r ids with the first s rows and with windows.
fn add_drawn(
    p: Pair,
    seed: &mut u64,
    ids: &Ids,
    counts: &Ids,
    rows: &RowList,
    r: u32,
    s: usize,
) -> Pair
    requires { r ≤ 65 }
{
    let mut firsts = [0u32; 66];
    let mut seconds = [0u32; 66];
    minutes::write(seed, &mut firsts, &mut seconds, false);
    minutes::damage(seed, &mut firsts, &mut seconds, r);
    let a = minutes::length(seed, r);
    let b = minutes::length(seed, r);
    add_first(p, ids, counts, rows, &firsts, &seconds, r as usize, s, a, b)
}

// ---- the clock

// To any minute; now and then to the one at which it stands.
fn set_clock(p: Pair, seed: &mut u64) -> Pair {
    if chance(seed, 15) {
        return pair::set_clock(p, p.clock);
    }
    pair::set_clock(p, minutes::minute(seed))
}

// ---- histories

// One call: mostly a batch or a change of the clock.
fn step(p: Pair, seed: &mut u64, rows: u32, ids: u32, density: u32) -> Pair {
    match draw(seed, 63) {
        0..=1 => open(p, seed, rows, ids),
        2..=27 => add(p, seed, density),
        28..=35 => remove(p, seed),
        36..=55 => set_clock(p, seed),
        _ => ask(p, seed),
    }
}

// As many histories, with densities from 1 to 8.
pub fn histories(p: Pair, from: u64, rows: u32, ids: u32, count: u32, calls: u32) -> Pair {
    let call = |q: Pair, seed: &mut u64, density: u32| step(q, seed, rows, ids, density);
    histories::run(p, from, call, rows, ids, count, calls)
}
