//! The operations that need only the order of a scale.
//!
//! A scale and the operands are parameters, as in the arithmetic.
ghost use Rattle.std.specs.Prelude.{◌≡◌, ◌&&◌, ◌||◌, int_le, int_lt};
ghost use Rattle.range.specs.Held.{Holds};
ghost use Rattle.range.specs.Hull.{Hull};
ghost use Rattle.range.specs.Outcomes.{Lesser, Greater, Either, Both, Picked};
ghost use Rattle.range.specs.Truths.{Allows, Exactly, Comparisons, Less, IsAtMost, Equal};

use crate::range::{Range, any_blank};
use crate::verdict::Verdict;
use scale::OrderedScale;

/// The numbers in either range.
pub fn join<S: OrderedScale>(scale: &S, x: Range, y: Range) -> Range
    ensures { Hull (S.place scale.now) (Either (Holds (S.place scale.now) x) (Holds (S.place scale.now) y)) result }
{
    if x.is_blank(scale) {
        return y.copy(scale);
    }
    if y.is_blank(scale) {
        return x.copy(scale);
    }
    Range::new(x.lower.min(y.lower), x.upper.max(y.upper)).copy(scale)
}

/// The numbers in both ranges.
pub fn meet<S: OrderedScale>(scale: &S, x: Range, y: Range) -> Range
    ensures { Hull (S.place scale.now) (Both (Holds (S.place scale.now) x) (Holds (S.place scale.now) y)) result }
{
    Range::new(x.lower.max(y.lower), x.upper.min(y.upper)).copy(scale)
}

/// The lesser of a number of each range.
pub fn lesser<S: OrderedScale>(scale: &S, x: Range, y: Range) -> Range
    ensures { Hull (S.place scale.now) (Lesser (Holds (S.place scale.now) x) (Holds (S.place scale.now) y)) result }
{
    if any_blank(scale, x, y) {
        return Range::blank();
    }
    Range::new(x.lower.min(y.lower), x.upper.min(y.upper)).copy(scale)
}

// `lesser` and `greater` differ in `min` and `max` alone, but a function of the choice would need a contract longer than both.
/// The greater of a number of each range.
pub fn greater<S: OrderedScale>(scale: &S, x: Range, y: Range) -> Range
    ensures { Hull (S.place scale.now) (Greater (Holds (S.place scale.now) x) (Holds (S.place scale.now) y)) result }
{
    if any_blank(scale, x, y) {
        return Range::blank();
    }
    Range::new(x.lower.max(y.lower), x.upper.max(y.upper)).copy(scale)
}

/// Whether x < y.
pub fn less<S: OrderedScale>(scale: &S, x: Range, y: Range) -> Verdict
    ensures { Exactly (Comparisons Less (Holds (S.place scale.now) x) (Holds (S.place scale.now) y)) result }
{
    if any_blank(scale, x, y) {
        return Verdict::Void;
    }
    Verdict::of(x.lower < y.upper, y.lower <= x.upper)
}

/// Whether x ≤ y, which is `not y < x`.
pub fn at_most<S: OrderedScale>(scale: &S, x: Range, y: Range) -> Verdict
    ensures { Exactly (Comparisons IsAtMost (Holds (S.place scale.now) x) (Holds (S.place scale.now) y)) result }
{
    less(scale, y, x).not()
}

// Whether each of two ranges that hold numbers begins where the other has not ended.
fn overlap(x: Range, y: Range) -> bool
    ensures { result ≡ (int_le x.lower y.upper && int_le y.lower x.upper) }
{
    x.lower <= y.upper && y.lower <= x.upper
}

// Whether one of two ranges begins before the other ends: not where both are the same single number.
fn spread(x: Range, y: Range) -> bool
    ensures { result ≡ (int_lt x.lower y.upper || int_lt y.lower x.upper) }
{
    x.lower < y.upper || y.lower < x.upper
}

/// Whether x = y.
pub fn equal<S: OrderedScale>(scale: &S, x: Range, y: Range) -> Verdict
    ensures { Exactly (Comparisons Equal (Holds (S.place scale.now) x) (Holds (S.place scale.now) y)) result }
{
    if any_blank(scale, x, y) {
        return Verdict::Void;
    }
    Verdict::of(overlap(x, y), spread(x, y))
}

/// The numbers of x if the verdict allows true, with those of y if it allows false.
pub fn pick<S: OrderedScale>(scale: &S, verdict: Verdict, x: Range, y: Range) -> Range
    ensures { Hull (S.place scale.now) (Picked (Allows verdict) (Holds (S.place scale.now) x) (Holds (S.place scale.now) y)) result }
{
    match verdict {
        Verdict::Certain => x.copy(scale),
        Verdict::Impossible => y.copy(scale),
        Verdict::Open => join(scale, x, y),
        Verdict::Void => Range::blank(),
    }
}
