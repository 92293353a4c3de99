// Whether chains that end are apart, by their last records alone: the last record of each chain is kept by the chain's number, and named by it; a chain that
// does not find its own name at its last record shares it with a later one. No place is cleared: only places that were written are read.
#![tactic(auto)]

ghost use Rattle.std.specs.Prelude.{◌≡◌};
ghost use Rattle.workspace.specs.Regions.{region};
ghost use Rattle.lists.specs.Lists.{Decides};
ghost use Rattle.pool.specs.Ends.{NoneTwice};
ghost use Rattle.ends.specs.Naming.{CanName, named_in, CanCompare};

use pool::Rec;

// Keeps the last record of chain k, 0 for none, at its place from a on, and names it by k: names are from place b on.
pub fn name(work: &mut [u32], a: usize, b: usize, k: u32, last: Rec)
    requires { CanName work.old a b k last.0 }
    ensures { work.new ≡ named_in work.old a b k last.0 }
{
    let e = last.0;
    work[a + (k - 1) as usize] = e;
    if e != 0 {
        work[b + (e - 1) as usize] = k;
    }
}

// Whether no two of the n chains that were named have the same last record.
pub fn are_apart(work: &[u32], a: usize, b: usize, n: usize) -> bool
    requires { CanCompare work.now a b n }
    ensures { Decides (NoneTwice (region work.now a n)) result }
{
    for i in 0..n {
        let e = work[a + i];
        if e != 0 && work[b + (e - 1) as usize] as usize != i + 1 {
            return false;
        }
    }
    true
}
