// The walks along the tree of all columns, from the marked starts up: each touched column has its turn, in rising order. The body of walk_add is document 000's
// Algorithm 3 at one column, that of walk_booked Algorithm 3 when adding and Algorithm 4 when removing, but that all of A comes first, as document 02 asks; n is
// the number of touched rows so far. What is proved after each of A to D is SoFar (specs/SoFar.antt).
//
//   document 000                     here
//   path-queue of column j           the mark of row j (MARKS), empty where it is 0
//   path-marker i                    position i of the batch; of several in a mark the largest is kept, the label
//   W_i                              the rows of the batch column at position i, in row_list or in the book
//   the prior column c on a path     a column in the queue of children of j (CHILDREN)
//   lost-child-queue (Algorithm 3),
//     new-child-queue (Algorithm 4)  the queue of lost children of j (LOST); removing, they are gained
//   π(c)                             parents, as lent
//   π(c) with a bar                  the new parent, in the mark of c
//   the multiset of j, with ♯        rows and multiplicities in the chain of j
//   the same with a bar              the old multiplicity plus the difference in the work table; then j's plan
//   k_i, and i into its path-queue   starts::mark_starts
//   j with a path-queue not empty    turns::take_column
//   Case A                           starts::case_a_listed, starts::case_a_booked
//   Case B, Case C                   children::cases_b_and_c: children::case_b, children::case_c for each child
//   c into the other queue           children::pass_on
//   Case D                           children::case_d: children::lost_child for each
//   the new parent of j              turns::write_plan
//   one step up, and i into the
//     path-queue of the parent       turns::step_up: turns::place_marker
ghost use Rattle.std.specs.Prelude.{true, List, ℕ, length};
ghost use Rattle.symbolic.specs.Columns.{Column};
ghost use Rattle.pool.specs.Chains.{chain};
ghost use Rattle.updown.specs.Starts.{Walked};
ghost use Rattle.updown.specs.Views.{ListedIn, SomeListedIn, BookedIn, SomeBookedIn};

use crate::turns::Walk;
use crate::{children, starts, turns};
use book::BookView;
use pool::Rec;
use tables::ColumnsView;

// Walks the tree after the batch from the marked starts on, for listed columns that enter; it stops where no free record is left.
pub fn walk_add(
    columns: ColumnsView,
    work: &mut [u32],
    row_counts: &[u32],
    row_list: &[u32],
    starts: &[u32],
    m: usize,
    flags: usize,
    free: Rec,
) -> Walk
    requires { SomeListedIn columns work.old starts.now row_counts.now row_list.now m flags free.0 }
    ensures { (R W : List Column) («work₀» : List ℕ) → ListedIn columns.entry «work₀» work.old starts.now row_counts.now row_list.now m flags free.0 R W → Walked columns.entry.next.now «work₀» work.new m flags (length (chain columns.entry.next.now free.0)) R W true result.fits result.first.0 result.last.0 result.count result.entries result.used result.avail.0 }
{
    let mut walk = turns::walk_from(free);
    while walk.fits {
        let j = turns::take_column(work, m, flags, walk.last, walk.used);
        if j.0 == 0 {
            return walk;
        }
        let n = starts::case_a_listed(work, row_counts, row_list, starts, m, j);
        let n = children::cases_b_and_c(columns, work, m, n, j, true);
        let n = children::case_d(columns, work, m, n, j, true);
        let avail = walk.avail;
        let e = turns::write_plan(columns, work, m, n, j, walk.used, avail);
        walk = turns::step_up(columns.parents, work, m, flags, j, walk, e, true);
    }
    walk
}

// Walks the tree of all columns from the marked starts on, for booked columns that enter or leave; entering, it stops where no free record is left.
pub fn walk_booked(
    columns: ColumnsView,
    book: BookView,
    work: &mut [u32],
    ids: &[u32],
    starts: &[u32],
    m: usize,
    flags: usize,
    free: Rec,
    adding: bool,
) -> Walk
    requires { SomeBookedIn columns book work.old starts.now ids.now m flags free.0 adding }
    ensures { (R W : List Column) («work₀» : List ℕ) → BookedIn columns.entry book.entry «work₀» work.old starts.now ids.now m flags free.0 R W adding → Walked columns.entry.next.now «work₀» work.new m flags (length (chain columns.entry.next.now free.0)) R W adding result.fits result.first.0 result.last.0 result.count result.entries result.used result.avail.0 }
{
    let mut walk = turns::walk_from(free);
    while walk.fits {
        let j = turns::take_column(work, m, flags, walk.last, walk.used);
        if j.0 == 0 {
            return walk;
        }
        let n = starts::case_a_booked(book, work, ids, starts, m, j, adding);
        let n = children::cases_b_and_c(columns, work, m, n, j, adding);
        let n = children::case_d(columns, work, m, n, j, adding);
        let avail = walk.avail;
        let e = turns::write_plan(columns, work, m, n, j, walk.used, avail);
        walk = turns::step_up(columns.parents, work, m, flags, j, walk, e, adding);
    }
    walk
}
