// The grade of a change's entries; in specs/ what a change on sound tables promises (`ChangeStep`), in proofs/ that such a step on tables cut to their sizes is one on the
// tables that they are cut from.
#![tactic(auto)]

ghost use Rattle.std.specs.Prelude.{◌≡◌, leb};
ghost use Rattle.lists.specs.Lists.{one};
ghost use Rattle.symbolic.specs.Grades.{limits_of, grade_of};

// 1 where the entries reach a limit, otherwise 0.
fn reaches(entries: u32, limit: u32) -> u32
    ensures { result ≡ one (leb limit entries) }
{
    if entries < limit {
        return 0;
    }
    1
}

// The grade of some entries, by the numbers of entries from which on it is 2, 3 and 4: one more than these limits that are reached; 0 for no entry.
pub fn grade_of(entries: u32, grade2: u32, grade3: u32, grade4: u32) -> u32
    ensures { result ≡ grade_of (limits_of grade2 grade3 grade4) entries }
{
    if entries == 0 {
        return 0;
    }
    let second = reaches(entries, grade2);
    let third = reaches(entries, grade3);
    let fourth = reaches(entries, grade4);
    match second + third + fourth {
        0 => 1,
        1 => 2,
        2 => 3,
        _ => 4,
    }
}
