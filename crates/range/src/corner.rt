//! Corners: the products and quotients of two ends, rounded.
ghost use Rattle.std.specs.Prelude.{◌≡◌, true, false, ◌≢◌};
ghost use Rattle.number.specs.Number.{Number};
ghost use Rattle.number.specs.Place.{at};
ghost use Rattle.number.specs.Ends.{◌⊙◌};
ghost use Rattle.range.specs.Corner.{Corner, outer, Outermost, sign_of_place, sign_of_side, end_towards, sign_product, utmost, Facing, recip};

use crate::range::Range;
use scale::{ArithmeticScale, OrderedScale, Rounding};

// Where a place stands, as seen from 0. Unlike an `Ordering` it has products.
#[derive(Clone, Copy)]
pub(crate) enum Sign {
    Negative,
    Zero,
    Positive,
}

// The numbers on one side of 0.
#[derive(Clone, Copy)]
pub(crate) enum Side {
    Below,
    Above,
}

impl Sign {
    // The sign of a product.
    fn times(self, other: Sign) -> Sign
        ensures { result ≡ sign_product self other }
    {
        match (self, other) {
            (Sign::Zero, _) | (_, Sign::Zero) => Sign::Zero,
            (Sign::Negative, Sign::Negative) | (Sign::Positive, Sign::Positive) => Sign::Positive,
            _ => Sign::Negative,
        }
    }
}

impl Side {
    fn sign(self) -> Sign
        ensures { result ≡ sign_of_side self }
    {
        match self {
            Side::Below => Sign::Negative,
            Side::Above => Sign::Positive,
        }
    }

    // The end of a range towards this side.
    pub(crate) fn end(self, r: Range) -> i64
        ensures { result ≡ end_towards self r }
    {
        match self {
            Side::Below => r.lower,
            Side::Above => r.upper,
        }
    }

    // Whether the code's place is on this side of 0.
    pub(crate) fn has<S: OrderedScale>(self, scale: &S, code: i64) -> bool
        ensures yes { result ≡ true → Facing self (S.place scale.now code) }
        ensures not { result ≡ false → Facing self (S.place scale.now code) → ⊥ }
    {
        match self {
            Side::Below => code < scale.zero(),
            Side::Above => scale.zero() < code,
        }
    }
}

// The sign of the code's place.
fn sign_of<S: OrderedScale>(scale: &S, code: i64) -> Sign
    ensures { result ≡ sign_of_place (S.place scale.now code) }
{
    if Side::Below.has(scale, code) {
        Sign::Negative
    } else if Side::Above.has(scale, code) {
        Sign::Positive
    } else {
        Sign::Zero
    }
}

// Whether the code's place is a number.
fn is_number<S: OrderedScale>(scale: &S, code: i64) -> bool
    ensures yes { result ≡ true → (x : Number) × (S.place scale.now code ≡ at x) }
    ensures not { result ≡ false → (x : Number) → S.place scale.now code ≢ at x }
{
    scale.lowest() < code && code < scale.highest()
}

// Here the rounding goes beside the scale, as in the methods of a scale: a struct of the two would only be taken apart again at each of their calls.
// A corner at an infinity or at 0. No code is above plus infinity, so that rounded down it is the last code of all; and so for minus infinity.
fn end<S: OrderedScale>(scale: &S, rounding: Rounding, sign: Sign) -> i64
    ensures { Corner (S.place scale.now) rounding (utmost sign) result }
{
    match (rounding, sign) {
        (_, Sign::Zero) => scale.zero(),
        (Rounding::Down, Sign::Negative) => scale.lowest(),
        (Rounding::Down, Sign::Positive) => i64::MAX,
        (Rounding::Up, Sign::Negative) => i64::MIN,
        (Rounding::Up, Sign::Positive) => scale.highest(),
    }
}

// The product of two ends. That of an infinity and 0 is 0, since an infinity is never a member.
pub(crate) fn product_corner<S: ArithmeticScale>(
    scale: &S,
    rounding: Rounding,
    a: i64,
    b: i64,
) -> i64
    ensures { Corner (S.place scale.now) rounding (S.place scale.now a ⊙ S.place scale.now b) result }
{
    if is_number(scale, a) && is_number(scale, b) {
        scale.product(rounding, a, b)
    } else {
        end(scale, rounding, sign_of(scale, a).times(sign_of(scale, b)))
    }
}

// The end a divided by a divisor's end b, for the divisors on one side of 0.
// One over an infinity is 0. Where b is not on that side, the divisors come near 0, and one over them grows without end.
pub(crate) fn quotient_corner<S: ArithmeticScale>(
    scale: &S,
    rounding: Rounding,
    side: Side,
    a: i64,
    b: i64,
) -> i64
    ensures { Corner (S.place scale.now) rounding (S.place scale.now a ⊙ recip side (S.place scale.now b)) result }
{
    if side.has(scale, b) {
        if !is_number(scale, b) {
            return scale.zero();
        }
        if is_number(scale, a) {
            return scale.quotient(rounding, a, b);
        }
    }
    end(scale, rounding, sign_of(scale, a).times(side.sign()))
}

// The outer one of two codes: the lesser where lower ends are rounded down, the greater where upper ends are rounded up.
fn outer(rounding: Rounding, a: i64, b: i64) -> i64
    ensures { result ≡ outer rounding a b }
{
    match rounding {
        Rounding::Down => a.min(b),
        Rounding::Up => a.max(b),
    }
}

// The outermost of the four corners of two ranges.
pub(crate) fn outermost<F: Fn(i64, i64) -> i64>(
    rounding: Rounding,
    x: Range,
    y: Range,
    corner: F,
) -> i64
    requires { F.IsAlwaysCallable corner }
    ensures { Outermost (F.post corner) rounding x y result }
{
    outer(
        rounding,
        outer(rounding, corner(x.lower, y.lower), corner(x.lower, y.upper)),
        outer(rounding, corner(x.upper, y.lower), corner(x.upper, y.upper)),
    )
}
