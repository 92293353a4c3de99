// Whether a question leaves the work table as it must: zero as far as the sizes say and otherwise as lent.
use crate::same::places;

// Every place of the work table, after a call that clears w of them: places hold 7 before it.
pub fn cleared(work: &[u32], w: usize) -> bool {
    for (k, &x) in work.iter().enumerate() {
        let must = if k < w { 0 } else { 7 };
        if x != must {
            return places("work table", k, x, must);
        }
    }
    true
}
