// The minutes of windows, two for each id: when a table of them is sound, minutes written as ids enter and leave, and the starts of columns hidden that are
// outside their windows.
ghost use Rattle.std.specs.Prelude.{◌≡◌, ◌+◌, ◌*◌, ◌≤◌, length};
ghost use Rattle.symbolic.specs.Columns.{is_window};
ghost use Rattle.windows.specs.Windowed.{minutes_fit, are_sound, put_minutes, entered, left, HasIds, listed_inside, booked_inside};

use crate::{counts_at, is_inside};
use book::Id;

// Whether two minutes are a window: 0 and 0 for none, or a second minute later than the first.
pub fn is_window(first: u32, second: u32) -> bool
    ensures { result ≡ is_window first second }
{
    (first == 0 && second == 0) || first < second
}

// Whether the minutes of an id fit: of a booked one a window, of any other 0 and 0.
fn minutes_fit(book_heads: &[u32], windows: &[u32], id: Id) -> bool
    requires { (1 ≤ id.0) × (id.0 ≤ length book_heads.now) × (2 * length book_heads.now ≤ length windows.now) × (length book_heads.now ≤ 200000) }
    ensures { result ≡ minutes_fit book_heads.now windows.now id.0 }
{
    let k = id.0 as usize;
    let first = windows[k - 1];
    let second = windows[book_heads.len() + k - 1];
    if book::is_booked(book_heads, id) {
        is_window(first, second)
    } else {
        first == 0 && second == 0
    }
}

// Whether the minutes of every id fit.
pub fn are_sound(book_heads: &[u32], windows: &[u32]) -> bool
    requires { (2 * length book_heads.now ≤ length windows.now) × (length book_heads.now ≤ 200000) }
    ensures { result ≡ are_sound book_heads.now windows.now }
{
    let end = book_heads.len() as u32 + 1;
    (1..end).all(|i| minutes_fit(book_heads, windows, Id(i)))
}

// Writes the minutes of an id, of n.
fn put_minutes(windows: &mut [u32], n: usize, id: Id, first: u32, second: u32)
    requires { (1 ≤ id.0) × (id.0 ≤ n) × (n + n ≤ length windows.old) × (n ≤ 200000) }
    ensures { windows.new ≡ put_minutes windows.old n id.0 first second }
{
    let k = id.0 as usize;
    windows[k - 1] = first;
    windows[n + k - 1] = second;
}

// Writes for each of ids the minutes that stand at its place in firsts and seconds.
pub fn enter(windows: &mut [u32], n: usize, ids: &[u32], firsts: &[u32], seconds: &[u32])
    requires { HasIds windows.old n ids.now × (length firsts.now ≡ length ids.now) × (length seconds.now ≡ length ids.now) }
    ensures { windows.new ≡ entered windows.old n ids.now firsts.now seconds.now }
{
    for (k, id) in ids.iter().enumerate() {
        put_minutes(windows, n, Id(*id), firsts[k], seconds[k]);
    }
}

// Writes minutes 0 and 0 for each of ids.
pub fn leave(windows: &mut [u32], n: usize, ids: &[u32])
    requires { HasIds windows.old n ids.now }
    ensures { windows.new ≡ left windows.old n ids.now }
{
    for id in ids {
        put_minutes(windows, n, Id(*id), 0, 0);
    }
}

// Writes start 0 for each column whose minutes, by position, have it outside at a minute.
pub fn hide_listed(firsts: &[u32], seconds: &[u32], minute: u32, starts: &mut [u32])
    requires { (length firsts.now ≡ length starts.old) × (length seconds.now ≡ length starts.old) }
    ensures { starts.new ≡ listed_inside minute firsts.now seconds.now starts.old }
{
    for (k, start) in starts.iter_mut().enumerate() {
        if !is_inside(firsts[k], seconds[k], minute) {
            *start = 0;
        }
    }
}

// Writes start 0 for each id, by position, that the table has outside at a minute.
pub fn hide_booked(windows: &[u32], n: usize, ids: &[u32], minute: u32, starts: &mut [u32])
    requires { HasIds windows.now n ids.now × (length starts.old ≡ length ids.now) }
    ensures { starts.new ≡ booked_inside minute windows.now n ids.now starts.old }
{
    for (k, start) in starts.iter_mut().enumerate() {
        if !counts_at(windows, n, minute, Id(ids[k])) {
            *start = 0;
        }
    }
}
