// What a change answers, with the record after it, and the three ways to make it: refused, accepted, accepted at a minute. In specs/ what a change of a factor asks and
// promises (`CanChange`, `ChangeTransition`, `UncheckedChange`), in proofs/ how a checked change comes from its admission and an unchecked one from its step on cut tables.
#![tactic(auto)]

ghost use Rattle.calls.specs.Refusals.{refusal};
ghost use Rattle.calls.specs.Steps.{refused_by};
ghost use Rattle.steps.specs.Outcome.{reported_by, with_heads, at_minute};
ghost use Rattle.factor.specs.Entries.{state_of};
ghost use Rattle.answers.specs.Answers.{AnswerIs};

use factor::Factor;
use pool::Rec;

// What a change answers, with the record after it. The entries are the sum of the touched columns' sizes, of each the larger of before and after.
#[repr(C)]
#[derive(Clone, Copy)]
pub struct Changed {
    pub number: u32,
    pub position: u32,
    pub touched: u32,
    pub entries: u32,
    pub grade: u32,
    pub factor: Factor,
}

// The answer of a change that a number refuses, at a position: the record is as it was.
pub fn refused(factor: Factor, number: u32, position: u32) -> Changed
    ensures { AnswerIs (refused_by (refusal number position)) (state_of factor) result }
{
    Changed {
        number,
        position,
        touched: 0,
        entries: 0,
        grade: 0,
        factor,
    }
}

// The answer of an accepted change that touched so many columns, with so many entries: the grade by the record's limits, and the free heads after it in the record.
pub fn accepted(factor: Factor, touched: u32, entries: u32, free: Rec, book_free: Rec) -> Changed
    ensures { AnswerIs (reported_by (state_of factor).limits touched entries) (with_heads (state_of factor) free.0 book_free.0) result }
{
    let grade = steps::grade_of(entries, factor.grade2, factor.grade3, factor.grade4);
    let mut after = factor;
    after.free = free.0;
    after.book_free = book_free.0;
    Changed {
        number: 0,
        position: 0,
        touched,
        entries,
        grade,
        factor: after,
    }
}

// The answer of an accepted clock change: the record stands at the minute, and its book has the free head that it had.
pub fn clocked(factor: Factor, minute: u32, touched: u32, entries: u32, free: Rec) -> Changed
    ensures { AnswerIs (reported_by (state_of factor).limits touched entries) (with_heads (at_minute (state_of factor) minute) free.0 factor.book_free) result }
{
    let mut after = factor;
    after.clock = minute;
    accepted(after, touched, entries, free, Rec(factor.book_free))
}
