// Random histories: openings, batches and questions.
use pairs::draw::draw;
use pairs::drawn::{add, ask, open, remove};
use pairs::histories;
use pairs::pair::Pair;

// One call: mostly a batch.
fn step(p: Pair, seed: &mut u64, rows: u32, ids: u32, density: u32) -> Pair {
    match draw(seed, 63) {
        0..=2 => open(p, seed, rows, ids),
        3..=29 => add(p, seed, density),
        30..=47 => remove(p, seed),
        _ => ask(p, seed),
    }
}

// As many histories, with densities from 1 to 8.
pub fn histories(p: Pair, from: u64, rows: u32, ids: u32, count: u32, calls: u32) -> Pair {
    let call = |q: Pair, seed: &mut u64, density: u32| step(q, seed, rows, ids, density);
    histories::run(p, from, call, rows, ids, count, calls)
}
