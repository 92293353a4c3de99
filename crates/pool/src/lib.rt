// Records linked by one `next` table, with chains from heads and one free chain: a record taken, given back, inserted or unlinked leaves every other
// chain. What shows, for any contents of the table, that a pool is whole is in proofs/Apart.antt and proofs/Closed.antt.
#![tactic(auto)]

ghost use Rattle.std.specs.Prelude.{◌≡◌, ◌≤◌, ◌<◌, min, length};
ghost use Rattle.lists.specs.Lists.{at, put};
ghost use Rattle.pool.specs.Chains.{chain, Linked};
ghost use Rattle.pool.specs.Changes.{Has, insert_after, unlink_after};
ghost use Rattle.pool.specs.Opening.{free_head, opened_nexts};

use std::mem;

// A record number, from 1; 0 is none.
#[derive(Clone, Copy, PartialEq, Eq, PartialOrd, Ord)]
pub struct Rec(pub u32);

// The number of records in the chain from head, counted up to a bound.
pub fn count(next: &[u32], head: Rec, bound: u32) -> u32
    requires { Linked next.now head.0 (chain next.now head.0) }
    ensures { result ≡ min (length (chain next.now head.0)) bound }
{
    let mut r = head.0;
    for n in 0..bound {
        if r == 0 {
            return n;
        }
        r = next[(r - 1) as usize];
    }
    bound
}

// Ends a chain after p, and gives the record that followed. Cut after the first free record it takes that record.
pub fn cut_after(next: &mut [u32], p: Rec) -> Rec
    requires { Has next.old p.0 }
    ensures after { result.0 ≡ at next.old p.0 }
    ensures next { next.new ≡ put next.old p.0 0 }
{
    Rec(mem::replace(&mut next[(p.0 - 1) as usize], 0))
}

// Joins the chain from head on after p, the last of its own. Joined on before the free chain it gives records back.
pub fn join_after(next: &mut [u32], p: Rec, head: Rec)
    requires { Has next.old p.0 }
    ensures { next.new ≡ put next.old p.0 head.0 }
{
    next[(p.0 - 1) as usize] = head.0;
}

// Takes the free record q in after p, and gives the next free record.
pub fn insert_after(next: &mut [u32], p: Rec, q: Rec) -> Rec
    requires { (Has next.old p.0) × (Has next.old q.0) }
    ensures free { result.0 ≡ at next.old q.0 }
    ensures next { next.new ≡ insert_after next.old p.0 q.0 }
{
    let i = (p.0 - 1) as usize;
    let j = (q.0 - 1) as usize;
    let free = next[j];
    next[j] = next[i];
    next[i] = q.0;
    Rec(free)
}

// Gives the record q after p back to the free chain.
pub fn unlink_after(next: &mut [u32], p: Rec, q: Rec, free: Rec)
    requires { (Has next.old p.0) × (Has next.old q.0) }
    ensures { next.new ≡ unlink_after next.old p.0 q.0 free.0 }
{
    let i = (p.0 - 1) as usize;
    let j = (q.0 - 1) as usize;
    next[i] = next[j];
    next[j] = free.0;
}

// Writes the nexts of an opened pool: the first `used` records end a chain each, the rest are free. Gives the free head.
pub fn link_free(next: &mut [u32], used: u32) -> Rec
    requires { (used ≤ length next.old) × (length next.old < 4294967295) }
    ensures free { result.0 ≡ free_head used (length next.old) }
    ensures next { next.new ≡ opened_nexts used (length next.old) }
{
    let k = next.len();
    let a = used as usize;
    for (i, x) in next.iter_mut().enumerate() {
        *x = if i < a || i + 1 == k {
            0
        } else {
            (i + 2) as u32
        };
    }
    if a < k { Rec(used + 1) } else { Rec(0) }
}
