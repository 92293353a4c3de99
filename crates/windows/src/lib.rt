// Windows of booked columns, two minutes for each id: which ids count at a minute, and the ids that count at one minute and not at another, collected in groups
// by rising id. Reads the book's heads and the windows; `minutes` writes windows.
#![tactic(auto)]

ghost use Rattle.std.specs.Prelude.{◌≡◌, ◌&&◌, ◌+◌, ◌*◌, ◌≤◌, length};
ghost use Rattle.symbolic.specs.Columns.{is_inside};
ghost use Rattle.book.specs.Book.{is_booked};
ghost use Rattle.windows.specs.Windows.{counts_at, moves_from};
ghost use Rattle.windows.specs.Chosen.{CanCollect, Collected};

pub mod minutes;

use book::Id;

// A group of ids: how many were collected, and the id to go on from.
#[derive(Clone, Copy)]
pub struct Group {
    pub count: usize,
    pub next: Id,
}

// Whether a window counts at a minute.
pub fn is_inside(first: u32, second: u32, minute: u32) -> bool
    ensures { result ≡ is_inside first second minute }
{
    if first == 0 && second == 0 {
        return true;
    }
    first <= minute && minute < second
}

// Whether id counts at a minute.
pub fn counts_at(windows: &[u32], n: usize, minute: u32, id: Id) -> bool
    requires { (1 ≤ id.0) × (id.0 ≤ n) × (n + n ≤ length windows.now) × (n ≤ 200000) }
    ensures { result ≡ counts_at windows.now n minute id.0 }
{
    let k = id.0 as usize;
    is_inside(windows[k - 1], windows[n + k - 1], minute)
}

// Whether id is booked and counts at one minute and not at another.
fn moves(book_heads: &[u32], windows: &[u32], minute: u32, other: u32, id: Id) -> bool
    requires { (1 ≤ id.0) × (id.0 ≤ length book_heads.now) × (2 * length book_heads.now ≤ length windows.now) × (length book_heads.now ≤ 16384) }
    ensures { result ≡ (is_booked book_heads.now id.0 && moves_from windows.now (length book_heads.now) minute other id.0) }
{
    let n = book_heads.len();
    book::is_booked(book_heads, id)
        && counts_at(windows, n, minute, id)
        && !counts_at(windows, n, other, id)
}

// Collects the booked ids from first on that count at one minute and not at another, as many as the list has places for.
pub fn collect(
    book_heads: &[u32],
    windows: &[u32],
    minute: u32,
    other: u32,
    first: Id,
    list: &mut [u32],
) -> Group
    requires { CanCollect book_heads.now windows.now first.0 }
    ensures { Collected book_heads.now (moves_from windows.now (length book_heads.now) minute other) first.0 list.old list.new result.count result.next.0 }
{
    let end = book_heads.len() as u32 + 1;
    let mut count = 0;
    for i in first.0..end {
        if count == list.len() {
            return Group { count, next: Id(i) };
        }
        if moves(book_heads, windows, minute, other, Id(i)) {
            list[count] = i;
            count += 1;
        }
    }
    Group {
        count,
        next: Id(end),
    }
}
