// Where the columns of a batch start, by position, that count all their rows: of each its smallest row, 0 for a column that has none.
ghost use Rattle.std.specs.Prelude.{◌≡◌, List, ℕ, ◌+◌, ◌≤◌, ◌<◌, length, get_or, take, drop};
ghost use Rattle.lists.specs.Lists.{sum_of};
ghost use Rattle.book.specs.Book.{tables_of};
ghost use Rattle.book.specs.Entries.{HasHead};
ghost use Rattle.updown.specs.Entries.{listed_starts, booked_starts};

use book::{Id, Row};

// The smallest row of a listed column, n rows from place at on; row 0 where it has none.
fn first_row(row_list: &[u32], at: usize, n: usize) -> Row
    requires { at + n ≤ length row_list.now }
    ensures { result.0 ≡ get_or (take n (drop at row_list.now)) 0 0 }
{
    if n == 0 { Row(0) } else { Row(row_list[at]) }
}

// Fills in where the columns start whose rows stand one after another in row_list, row_counts[k] of them each.
pub fn listed_starts(row_counts: &[u32], row_list: &[u32], starts: &mut [u32])
    requires { (length starts.old ≡ length row_counts.now) × (sum_of (λ n. n) row_counts.now ≤ length row_list.now) }
    ensures { starts.new ≡ listed_starts row_counts.now row_list.now }
{
    let mut at: usize = 0;
    for (k, &count) in row_counts.iter().enumerate() {
        let n = count as usize;
        starts[k] = first_row(row_list, at, n).0;
        at += n;
    }
}

// Fills in where the columns start that the book has under ids.
pub fn booked_starts(book_heads: &[u32], book_rows: &[u16], ids: &[u32], starts: &mut [u32])
    requires { (length starts.old ≡ length ids.now) × ((k : ℕ) → k < length ids.now → HasHead book_heads.now book_rows.now (get_or ids.now k 0)) }
    ensures { (next : List ℕ) → length book_rows.now ≡ length next → starts.new ≡ booked_starts (tables_of book_heads.now book_rows.now next) ids.now }
{
    for (k, &id) in ids.iter().enumerate() {
        starts[k] = book::smallest_row(book_heads, book_rows, Id(id)).0;
    }
}
