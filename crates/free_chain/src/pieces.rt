// The free chain in pieces: it is cut at every 1,024th record, the pieces are walked in turn, so that the waits for far records overlap, and their lengths are
// added along the chain. A piece always says how many steps lead from its start to where it stands, so in whatever order the pieces are walked, and however
// far, a sum that comes to the chain's end is its length. Where it does not, nothing is said. The queue, the order and the budget only steer and cost time:
// no answer rests on them.
// Scratch has two places for each piece, its length and where it stands (a record, or 0), and behind them the queue of the pieces that are still to be walked.
// The last piece starts at the chain's head, the others each at its cut.
ghost use Rattle.std.specs.Prelude.{◌+◌, ◌≤◌, ◌<◌, ◌≡◌, true, length, IfSome};
ghost use Rattle.pool.specs.Free.{FreeHas};
ghost use Rattle.free_chain.specs.Pieces.{OnePool, RunsTo, FourFollow, CanStep, Stepped, Kept, Room, Laid, CanRound, Rounded, CanAddUp, AddsTo};

use pool::Rec;

// Records between two cuts.
const PIECE: usize = 1024;

// Fewer free records than these are walked one by one.
const FEW: usize = 2048;

// After a round: the pieces still queued, and how many records may still be walked.
#[derive(Clone, Copy)]
struct Remaining {
    queued: usize,
    left: usize,
}

// Whether the four records from place e on each lead to the one behind it, compared at once. It may say no where they do.
fn four_follow(next: &[u32], e: usize) -> bool
    requires { (e + 4 ≤ length next.now) × (length next.now ≤ 1073741824) }
    ensures { result ≡ true → FourFollow next.now e }
{
    let k = (e + 2) as u32;
    (next[e] == k) & (next[e + 1] == k + 1) & (next[e + 2] == k + 2) & (next[e + 3] == k + 3)
}

// The last place of a run of records that follow one another in the table, from place i on and up to top.
fn run_near(next: &[u32], i: usize, top: usize) -> usize
    requires { (i ≤ top) × (top < length next.now) }
    ensures { RunsTo next.now i result }
{
    for e in i..top {
        if next[e] as usize != e + 2 {
            return e;
        }
    }
    top
}

// The same from place i on and before the next cut, four records at once as far as they go: its steps need not wait for loads. Where chains lie scattered most
// runs are one record, which is seen first.
fn run_end(next: &[u32], i: usize) -> usize
    requires { (i < length next.now) × (length next.now ≤ 1073741824) }
    ensures { RunsTo next.now i result }
{
    if next[i] as usize != i + 2 {
        return i;
    }
    let last = next.len() - 1;
    let cut = i - i % PIECE + (PIECE - 1);
    let top = cut.min(last);
    let mut e = i;
    while e + 4 <= top {
        if !four_follow(next, e) {
            return run_near(next, e, top);
        }
        e += 4;
    }
    run_near(next, e, top)
}

// Walks piece s on by a run and the step after it, if that leads to a record of the pool, or to 0 from a record of row 0, and its length stays within the
// pool's. Gives the records walked where it is to be walked further, and none where it is not: it has come to a cut or to the end, or cannot go on.
fn step(rows: &[u16], next: &[u32], scratch: &mut [u32], s: usize) -> Option<usize>
    requires { CanStep rows.now next.now scratch.old s }
    ensures stepped { Stepped rows.now next.now scratch.old scratch.new s }
    ensures walked { IfSome result (λ n. 1 ≤ n) }
{
    let r = scratch[2 * s + 1];
    if r == 0 {
        return None;
    }
    let i = (r - 1) as usize;
    let e = run_end(next, i);
    let after = next[e];
    let walked = e - i + 1;
    let size = scratch[2 * s] as usize + walked;
    if next.len() < size || next.len() < after as usize {
        return None;
    }
    if after == 0 && rows[e] != 0 {
        return None;
    }
    scratch[2 * s] = size as u32;
    scratch[2 * s + 1] = after;
    if after == 0 || (after - 1) as usize % PIECE == 0 {
        return None;
    }
    Some(walked)
}

// Lays the pieces out: each has length 0 and stands at its start. Queued behind them are, of the cuts, those of row 0, and the head's piece unless it starts
// at a cut. Gives their number.
fn lay(rows: &[u16], scratch: &mut [u32], cuts: usize, free: Rec) -> usize
    requires { Room (length rows.now) scratch.old cuts × (1 ≤ free.0) }
    ensures { Laid cuts free.0 scratch.new result }
{
    let head = free.0;
    let queue = 2 * (cuts + 1);
    scratch[2 * cuts] = 0;
    scratch[2 * cuts + 1] = head;
    scratch[queue] = cuts as u32;
    let mut n: usize = if (head - 1) as usize % PIECE == 0 {
        0
    } else {
        1
    };
    for s in 0..cuts {
        let i = PIECE * s;
        scratch[2 * s] = 0;
        scratch[2 * s + 1] = (i + 1) as u32;
        if rows[i] == 0 {
            scratch[queue + n] = s as u32;
            n += 1;
        }
    }
    n
}

// Steps each queued piece once. The last of the queue takes the place of one that is not to be walked further. Where more records are walked than the budget
// has left, no piece is walked further.
fn round(
    rows: &[u16],
    next: &[u32],
    scratch: &mut [u32],
    cuts: usize,
    queued: usize,
    left: usize,
) -> Remaining
    requires { CanRound rows.now next.now scratch.old cuts queued }
    ensures { Rounded rows.now next.now cuts scratch.old scratch.new left result.queued result.left }
{
    let queue = 2 * (cuts + 1);
    let mut n = queued;
    let mut rest = left;
    let mut q: usize = 0;
    while q < n {
        let s = scratch[queue + q] as usize;
        match step(rows, next, scratch, s) {
            None => {
                n -= 1;
                scratch[queue + q] = scratch[queue + n];
            }
            Some(walked) => {
                if rest < walked {
                    return Remaining { queued: 0, left: 0 };
                }
                rest -= walked;
                q += 1;
            }
        }
    }
    Remaining {
        queued: n,
        left: rest,
    }
}

// Rounds until none is queued, on a budget of k records: in sound tables these suffice. One step of each piece, its last, is not charged: a run of at most
// 1,024 records. So fewer than k + F + 2,048 records are walked, for any contents.
fn rounds(rows: &[u16], next: &[u32], scratch: &mut [u32], cuts: usize, queued: usize, k: usize)
    requires { CanRound rows.now next.now scratch.old cuts queued }
    ensures { Kept rows.now next.now cuts scratch.old scratch.new }
{
    let mut n = queued;
    let mut left = k;
    while 0 < n {
        let x = round(rows, next, scratch, cuts, n, left);
        n = x.queued;
        left = x.left;
    }
}

// Adds the pieces' lengths along the chain, from the head's piece on: whether they come to its end with k records, by each cut once at most.
fn add_up(scratch: &[u32], cuts: usize, k: usize) -> bool
    requires { CanAddUp scratch.now cuts }
    ensures { AddsTo scratch.now cuts k result }
{
    let mut total = scratch[2 * cuts] as usize;
    let mut r = scratch[2 * cuts + 1];
    let mut left = cuts;
    while r != 0 {
        if left == 0 {
            return false;
        }
        let i = (r - 1) as usize;
        if i % PIECE != 0 {
            return false;
        }
        let s = i / PIECE;
        total += scratch[2 * s] as usize;
        r = scratch[2 * s + 1];
        left -= 1;
    }
    total == k
}

// Whether pieces show that the free chain ends after k records, the last with row 0. Of few records, in little scratch or where there is no such chain it says
// nothing.
pub fn reach(rows: &[u16], next: &[u32], scratch: &mut [u32], free: Rec, k: usize) -> bool
    requires { OnePool rows.now next.now }
    ensures { result ≡ true → FreeHas rows.now next.now free.0 k }
{
    let head = free.0;
    let cuts = (next.len() + (PIECE - 1)) / PIECE;
    if k < FEW || scratch.len() < 3 * (cuts + 1) || head == 0 || next.len() < head as usize {
        return false;
    }
    let n = lay(rows, scratch, cuts, free);
    rounds(rows, next, scratch, cuts, n, k);
    add_up(scratch, cuts, k)
}
