// The first places of lists, lent to an addition with windows.
use pairs::pair;
use pairs::pair::Pair;

// Adds the first r ids and counts with the first s rows, the first a first minutes and the first b second minutes.
pub fn add_first(
    p: Pair,
    ids: &[u32],
    counts: &[u32],
    rows: &[u32],
    firsts: &[u32],
    seconds: &[u32],
    r: usize,
    s: usize,
    a: usize,
    b: usize,
) -> Pair {
    if ids.len() < r
        || counts.len() < r
        || rows.len() < s
        || firsts.len() < a
        || seconds.len() < b
    {
        return p;
    }
    pair::add_within(
        p,
        &ids[..r],
        &counts[..r],
        &rows[..s],
        &firsts[..a],
        &seconds[..b],
    )
}
