// Random histories, of calls that a program draws.
use crate::drawn::open;
use crate::pair::Pair;
use crate::rows;

// An opening, then as many calls, then the questions about rows, which draw from a copy of the seed: what follows them is the same without them.
fn one<C: Fn(Pair, &mut u64, u32) -> Pair>(
    p: Pair,
    seed: &mut u64,
    call: &C,
    rows: u32,
    ids: u32,
    density: u32,
    calls: u32,
) -> Pair
    requires { C.IsAlwaysCallable call.now }
{
    let mut q = open(p, seed, rows, ids);
    for _ in 0..calls {
        q = call(q, seed, density);
    }
    rows::asked(q, *seed)
}

// As many histories, each of as many calls, with densities from 1 to 8: a call is drawn from the seed, with the density of its history.
pub fn run<C: Fn(Pair, &mut u64, u32) -> Pair>(
    p: Pair,
    from: u64,
    call: C,
    rows: u32,
    ids: u32,
    count: u32,
    calls: u32,
) -> Pair
    requires { C.IsAlwaysCallable call }
{
    let mut seed = from;
    let mut q = p;
    for k in 0..count {
        q = one(q, &mut seed, &call, rows, ids, k % 8 + 1, calls);
    }
    q
}
