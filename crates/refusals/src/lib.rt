// The numbers that a batch is refused by before a plan is made, with their positions, found in their order: of an addition 7 to 15 and 21, of a removal 7 to 9
// and 11. The book is shared, never written. position.rt has what is asked at one position.
#![tactic(auto)]

ghost use Rattle.std.specs.Prelude.{◌≡◌, not, ◌+◌, ◌≤◌, ◌<◌, length};
ghost use Rattle.calls.specs.Refusals.{refusal, keep_step};
ghost use Rattle.early_refusals.specs.Refusal.{number_of};
ghost use Rattle.refusals.specs.Parts.{InStep};
ghost use Rattle.refusals.specs.Found.{found, HasBook, ColumnsFound, AddFound, IdsFound, RemoveFound};

mod position;

use early_refusals::Refusal;
use pool::Rec;

// The most rows in a column.
pub const MOST_COUNT: u32 = 256;

// Why a batch is refused, and the position of the column that is, 0 where it has none.
#[derive(Clone, Copy, Debug, PartialEq, Eq)]
pub struct Refused {
    pub refusal: Refusal,
    pub position: u32,
}

impl Refused {
    // A reason that has no position.
    pub fn whole(reason: Refusal) -> Refused
        ensures { found result ≡ refusal (number_of reason) 0 }
    {
        Refused {
            refusal: reason,
            position: 0,
        }
    }

    // A reason at place k of a batch, which is position k + 1.
    fn at(reason: Refusal, k: usize) -> Refused
        requires { k < 64 }
        ensures { found result ≡ refusal (number_of reason) (k + 1) }
    {
        let position = (k + 1) as u32;
        Refused {
            refusal: reason,
            position,
        }
    }
}

// The first refusal of a column, position by position; after the last, that of rows left over.
fn columns_refusal(
    book_heads: &[u32],
    ids: &[u32],
    row_counts: &[u32],
    row_list: &[u32],
    firsts: &[u32],
    seconds: &[u32],
    m: u32,
) -> Result<(), Refused>
    requires { InStep ids.now row_counts.now firsts.now seconds.now }
    ensures { ColumnsFound m book_heads.now ids.now row_counts.now row_list.now firsts.now seconds.now result }
{
    let mut from: usize = 0;
    for k in 0..ids.len() {
        if let Err(reason) = position::column_refusal(
            book_heads, ids, row_counts, row_list, firsts, seconds, k, from, m,
        ) {
            return Err(Refused::at(reason, k));
        }
        from += row_counts[k] as usize;
    }
    if from < row_list.len() {
        return Err(Refused::whole(Refusal::Count));
    }
    Ok(())
}

// Whether a batch has too few or too many columns, or a list that is to keep step with the ids does not.
fn out_of_step(ids: &[u32], row_counts: &[u32], firsts: &[u32], seconds: &[u32]) -> bool
    ensures { result ≡ not (keep_step ids.now row_counts.now firsts.now seconds.now) }
{
    let n = ids.len();
    early_refusals::shape_outside(n)
        || row_counts.len() != n
        || firsts.len() != n
        || seconds.len() != n
}

// Refuses an addition by 7 to 15 or 21. The book is sound.
pub fn find_add(
    book_heads: &[u32],
    book_next: &[u32],
    ids: &[u32],
    row_counts: &[u32],
    row_list: &[u32],
    firsts: &[u32],
    seconds: &[u32],
    book_free: Rec,
    m: u32,
) -> Result<(), Refused>
    requires { HasBook m book_heads.now book_next.now book_free.0 }
    ensures { AddFound m book_heads.now book_next.now book_free.0 ids.now row_counts.now row_list.now firsts.now seconds.now result }
{
    if out_of_step(ids, row_counts, firsts, seconds) {
        return Err(Refused::whole(Refusal::Shape));
    }
    columns_refusal(book_heads, ids, row_counts, row_list, firsts, seconds, m)?;
    if book::fits(book_next, book_free, row_list.len() as u32) {
        return Ok(());
    }
    Err(Refused::whole(Refusal::BookFull))
}

// The first refusal of an id of a removal, position by position.
fn ids_refusal(book_heads: &[u32], ids: &[u32]) -> Result<(), Refused>
    requires { length ids.now ≤ 64 }
    ensures { IdsFound book_heads.now ids.now result }
{
    for k in 0..ids.len() {
        if let Err(reason) = position::leaving_refusal(book_heads, ids, k) {
            return Err(Refused::at(reason, k));
        }
    }
    Ok(())
}

// Refuses a removal by 7 to 9 or 11.
pub fn find_remove(book_heads: &[u32], ids: &[u32]) -> Result<(), Refused>
    ensures { RemoveFound book_heads.now ids.now result }
{
    if early_refusals::shape_outside(ids.len()) {
        return Err(Refused::whole(Refusal::Shape));
    }
    ids_refusal(book_heads, ids)
}
