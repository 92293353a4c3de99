// The report of an exchange that is done, from the gathered places and the tables that hold it.
ghost use Rattle.std.specs.Prelude.{◌≡◌, List, ℕ, max, length};
ghost use Rattle.symbolic.specs.Columns.{Column};
ghost use Rattle.pool.specs.Chains.{chain};
ghost use Rattle.tables.specs.Stored.{stored_of};
ghost use Rattle.commit.specs.Gather.{CanCount};
ghost use Rattle.exchange.specs.Exchange.{CanReport, SomeReport, Reported};

use pool::Rec;
use workspace::{PLAN, UPPER_WEIGHT};

// The longest chain of a column.
const LONGEST: u32 = 4096;

// How many columns lie on the paths, and the entries of the exchange.
#[derive(Clone, Copy)]
pub struct Summary {
    pub count: u32,
    pub entries: u32,
}

// The larger of a size and that of the chain from head.
fn larger(next: &[u32], head: Rec, size: u32) -> u32
    requires { CanCount next.now head.0 }
    ensures { result ≡ max size (length (chain next.now head.0)) }
{
    size.max(pool::count(next, head, LONGEST))
}

// Writes the columns on the paths, rising, each with label 0, and gives their number and the entries. It asks for tables that hold what is reported, so no report
// is written before the exchange is known to fit.
pub fn report(
    heads: &[u32],
    next: &[u32],
    work: &[u32],
    touched: &mut [u16],
    labels: &mut [u16],
) -> Summary
    requires { SomeReport heads.now next.now work.now touched.old labels.old }
    ensures { (ps xs ns : List ℕ) (z : ℕ) (R A B : List Column) → CanReport (stored_of heads.now ps xs ns next.now z) R A B work.now touched.old labels.old → Reported (length heads.now) R A B touched.old labels.old touched.new labels.new result.count result.entries }
{
    let m = heads.len();
    let f = next.len();
    let a = PLAN * m + f + 2 * f;
    let mut t: usize = 0;
    let mut entries: u32 = 0;
    for (j, &head) in heads.iter().enumerate() {
        let x = work[a + j] / UPPER_WEIGHT;
        if x != 0 {
            entries += larger(next, Rec(head), x - 1);
            touched[t] = (j + 1) as u16;
            labels[t] = 0;
            t += 1;
        }
    }
    Summary {
        count: t as u32,
        entries,
    }
}
