// The limits of an opening's grades: their default, and the rule that 20 and 6 ask for.
ghost use Rattle.std.specs.Prelude.{◌≡◌, ◌&&◌, eqb};
ghost use Rattle.symbolic.specs.Grades.{limits_of, are_limits, limits_for};
ghost use Rattle.early_refusals.specs.Early.{limits_in};

// The limits of the grades: from so many entries on a grade is 2, 3 and 4.
#[derive(Clone, Copy)]
pub struct Limits {
    pub grade2: u32,
    pub grade3: u32,
    pub grade4: u32,
}

// Whether three numbers are zeros.
fn all_zero(a: u32, b: u32, c: u32) -> bool
    ensures { result ≡ eqb a 0 && eqb b 0 && eqb c 0 }
{
    a == 0 && b == 0 && c == 0
}

// The limits of an opening: the default ones where three zeros are asked for.
pub fn default_limits(grade2: u32, grade3: u32, grade4: u32) -> Limits
    ensures { limits_in result ≡ limits_for (limits_of grade2 grade3 grade4) }
{
    if all_zero(grade2, grade3, grade4) {
        return Limits {
            grade2: 256,
            grade3: 4096,
            grade4: 65536,
        };
    }
    Limits {
        grade2,
        grade3,
        grade4,
    }
}

// Whether three limits keep the rule: the first at least 2, each above the one before.
pub fn are_limits(grade2: u32, grade3: u32, grade4: u32) -> bool
    ensures { result ≡ are_limits (limits_of grade2 grade3 grade4) }
{
    2 <= grade2 && grade2 < grade3 && grade3 < grade4
}
