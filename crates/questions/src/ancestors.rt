// The common row of some rows: the smallest that lies on all their paths. Of two rows the smaller is walked up its path until they meet, row after row; parents
// alone are read.
ghost use Rattle.std.specs.Prelude.{◌≡◌, true, ◌≤◌, length};
ghost use Rattle.lists.specs.Lists.{is_in, all};
ghost use Rattle.symbolic.specs.Columns.{Register};
ghost use Rattle.symbolic.specs.Factor.{factor_for};
ghost use Rattle.symbolic.specs.Meeting.{common_of};
ghost use Rattle.calls.specs.Calls.Question.{ask_common};
ghost use Rattle.questions.specs.Asked.{ParentsFor, CanFollow, Replies};
ghost use Rattle.questions.specs.Meeting.{PathsJoin};

use crate::Reply;
use book::Row;

// The row where the paths of a and b join, 0 where they do not.
fn join(parents: &[u16], a: Row, b: Row) -> Row
    requires { CanFollow parents.now × (1 ≤ a.0) × (a.0 ≤ length parents.now) × (1 ≤ b.0) × (b.0 ≤ length parents.now) }
    ensures { (r : Register) → ParentsFor parents.now r → PathsJoin r a.0 b.0 result.0 }
{
    let mut x = a.0;
    let mut y = b.0;
    while x != y {
        if x < y {
            x = parents[(x - 1) as usize] as u32;
            if x == 0 {
                return Row(0);
            }
        } else {
            y = parents[(y - 1) as usize] as u32;
            if y == 0 {
                return Row(0);
            }
        }
    }
    Row(x)
}

// The smallest row on the paths of all of the rows, at least one of 1 to m each; 0 where there is none.
fn common_row(parents: &[u16], row_list: &[u32]) -> Row
    requires { CanFollow parents.now × (1 ≤ length row_list.now) × (all (is_in 1 (length parents.now)) row_list.now ≡ true) }
    ensures { (r : Register) → ParentsFor parents.now r → result.0 ≡ common_of (factor_for r) row_list.now }
{
    let mut x = row_list[0];
    for k in 1..row_list.len() {
        let met = join(parents, Row(x), Row(row_list[k]));
        x = met.0;
        if x == 0 {
            return Row(0);
        }
    }
    Row(x)
}

// The smallest row on the paths of all of the rows, 0 where there is none; 7 for no row or more than 64, 17 for one outside 1 to m.
pub fn common(parents: &[u16], row_list: &[u32]) -> Reply
    requires { CanFollow parents.now }
    ensures { Replies (ParentsFor parents.now) (ask_common row_list.now) result }
{
    let m = parents.len() as u32;
    if let Err(reason) = question_refusals::named(m, row_list) {
        return Reply::refused(reason);
    }
    let x = common_row(parents, row_list);
    Reply::of(x.0)
}
