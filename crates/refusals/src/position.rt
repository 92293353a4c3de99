// What is asked at one position of a batch, each a reason alone: one id, the rows of a column, its count, a column with its window, the id of a removal.
// The position itself is that of the loops of lib.rt.
ghost use Rattle.std.specs.Prelude.{◌≡◌, ◌≤◌, ◌<◌, length, get_or, drop};
ghost use Rattle.lists.specs.Lists.{among};
ghost use Rattle.book.specs.Book.{is_booked};
ghost use Rattle.early_refusals.specs.Refusal.{number_in};
ghost use Rattle.refusals.specs.Parts.{IsNumber, before, id_refusal, rows_part, count_refusal, column_refusal, leaving_refusal, HasPlace};

use book::Id;
use early_refusals::Refusal;

// Whether the id at place k comes before it too.
fn is_earlier(ids: &[u32], k: usize) -> bool
    requires { k < length ids.now }
    ensures { result ≡ among (get_or ids.now k 0) (before k ids.now) }
{
    ids[..k].contains(&ids[k])
}

// Refuses the id at place k by 8 or 9.
fn id_refusal(book_heads: &[u32], ids: &[u32], k: usize) -> Result<(), Refusal>
    requires { k < length ids.now }
    ensures { IsNumber (number_in result) (id_refusal (length book_heads.now) ids.now k) }
{
    let id = ids[k];
    if id < 1 || book_heads.len() < id as usize {
        return Err(Refusal::IdOutside);
    }
    if is_earlier(ids, k) {
        return Err(Refusal::IdRepeated);
    }
    Ok(())
}

// Refuses the rows of a column by 13 or 14.
fn rows_refusal(rows: &[u32], m: u32) -> Result<(), Refusal>
    ensures { IsNumber (number_in result) (rows_part m rows.now) }
{
    let mut above: u32 = 0;
    for row in rows {
        if early_refusals::outside(1, m, *row) {
            return Err(Refusal::RowOutside);
        }
        if *row <= above {
            return Err(Refusal::RowOrder);
        }
        above = *row;
    }
    Ok(())
}

// Refuses a column of count rows, which start at from, by 12, 13 or 14.
fn count_refusal(row_list: &[u32], from: usize, count: u32, m: u32) -> Result<(), Refusal>
    requires { from ≤ length row_list.now }
    ensures { IsNumber (number_in result) (count_refusal m count (drop from row_list.now)) }
{
    if early_refusals::outside(1, crate::MOST_COUNT, count)
        || row_list.len() - from < count as usize
    {
        return Err(Refusal::Count);
    }
    let to = from + count as usize;
    rows_refusal(&row_list[from..to], m)
}

// Refuses the column at place k, whose rows start at from, by 8, 9, 10, 12, 13, 14 or 21.
pub fn column_refusal(
    book_heads: &[u32],
    ids: &[u32],
    row_counts: &[u32],
    row_list: &[u32],
    firsts: &[u32],
    seconds: &[u32],
    k: usize,
    from: usize,
    m: u32,
) -> Result<(), Refusal>
    requires { HasPlace ids.now row_counts.now row_list.now firsts.now seconds.now k from }
    ensures { IsNumber (number_in result) (column_refusal m (length book_heads.now) (is_booked book_heads.now (get_or ids.now k 0)) ids.now row_counts.now (drop from row_list.now) firsts.now seconds.now k) }
{
    id_refusal(book_heads, ids, k)?;
    let id = ids[k];
    if book::is_booked(book_heads, Id(id)) {
        return Err(Refusal::IdBooked);
    }
    count_refusal(row_list, from, row_counts[k], m)?;
    if windows::minutes::is_window(firsts[k], seconds[k]) {
        return Ok(());
    }
    Err(Refusal::Window)
}

// Refuses the id at place k of a removal by 8, 9 or 11.
pub fn leaving_refusal(book_heads: &[u32], ids: &[u32], k: usize) -> Result<(), Refusal>
    requires { k < length ids.now }
    ensures { IsNumber (number_in result) (leaving_refusal (length book_heads.now) (is_booked book_heads.now (get_or ids.now k 0)) ids.now k) }
{
    id_refusal(book_heads, ids, k)?;
    let id = ids[k];
    if book::is_booked(book_heads, Id(id)) {
        return Ok(());
    }
    Err(Refusal::IdNotBooked)
}
