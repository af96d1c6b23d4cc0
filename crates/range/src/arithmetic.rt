//! Arithmetic on ranges: the hull of what an operation comes to, over every choice of members.
//!
//! A scale and the operands are parameters, as `sum(scale, x, y)` reads; a struct of the three would be made for each call and taken apart in it.
ghost use Rattle.std.specs.Prelude.{◌≡◌, true, false};
ghost use Rattle.number.specs.Number.{Number};
ghost use Rattle.number.specs.Place.{Inhabited, Sums, Differences, Products, Quotients};
ghost use Rattle.range.specs.Held.{Holds};
ghost use Rattle.range.specs.Hull.{Hull};
ghost use Rattle.range.specs.Outcomes.{Constant, Negations, Squares, Quotients⁻, Quotients⁺};
ghost use Rattle.range.specs.Corner.{part, QuotientsOn};
ghost use Rattle.range.specs.Worked.{Unary, Binary, BinaryEnd};

use crate::corner::{Side, outermost, product_corner, quotient_corner};
use crate::order::join;
use crate::range::{Range, any_blank};
use number::Fraction;
use scale::{ArithmeticScale, OrderedScale, Rounding};

/// The value of a fraction; blank where it has none.
pub fn constant<S: ArithmeticScale>(scale: &S, f: Fraction) -> Range
    ensures { Hull (S.place scale.now) (Constant f) result }
{
    if !f.has_value() {
        return Range::blank();
    }
    Range {
        lower: scale.fraction(Rounding::Down, f),
        upper: scale.fraction(Rounding::Up, f),
    }
}

/// -y, which is 0 - y.
pub fn negation<S: ArithmeticScale>(scale: &S, y: Range) -> Range
    ensures { Unary (S.place scale.now) Negations y result }
{
    let zero = scale.zero();
    difference(scale, Range::new(zero, zero), y)
}

/// x + y.
pub fn sum<S: ArithmeticScale>(scale: &S, x: Range, y: Range) -> Range
    ensures { Binary (S.place scale.now) Sums x y result }
{
    if any_blank(scale, x, y) {
        return Range::blank();
    }
    Range {
        lower: scale.sum(Rounding::Down, x.lower, y.lower),
        upper: scale.sum(Rounding::Up, x.upper, y.upper),
    }
}

// `sum` and `difference` differ in the method and in which ends meet: a function of both would need a contract longer than theirs
/// x - y.
pub fn difference<S: ArithmeticScale>(scale: &S, x: Range, y: Range) -> Range
    ensures { Binary (S.place scale.now) Differences x y result }
{
    if any_blank(scale, x, y) {
        return Range::blank();
    }
    Range {
        lower: scale.difference(Rounding::Down, x.lower, y.upper),
        upper: scale.difference(Rounding::Up, x.upper, y.lower),
    }
}

// The lower end of x y, rounded down, or the upper one, rounded up.
fn product_end<S: ArithmeticScale>(scale: &S, rounding: Rounding, x: Range, y: Range) -> i64
    ensures { BinaryEnd (S.place scale.now) rounding Products x y result }
{
    outermost(rounding, x, y, |a, b| {
        product_corner(scale, rounding, a, b)
    })
}

/// x y.
pub fn product<S: ArithmeticScale>(scale: &S, x: Range, y: Range) -> Range
    ensures { Binary (S.place scale.now) Products x y result }
{
    if any_blank(scale, x, y) {
        return Range::blank();
    }
    Range {
        lower: product_end(scale, Rounding::Down, x, y),
        upper: product_end(scale, Rounding::Up, x, y),
    }
}

/// y squared, as y times y: the two factors are chosen apart.
pub fn square<S: ArithmeticScale>(scale: &S, y: Range) -> Range
    ensures { Unary (S.place scale.now) Squares y result }
{
    product(scale, y, y)
}

// Whether y has a number on the side of 0.
fn reaches<S: OrderedScale>(scale: &S, side: Side, y: Range) -> bool
    ensures some { result ≡ true → Inhabited (part side (Holds (S.place scale.now) y)) }
    ensures empty { result ≡ false → (z : Number) → part side (Holds (S.place scale.now) y) z → ⊥ }
{
    !y.is_blank(scale) && side.has(scale, side.end(y))
}

// The lower end of x / y, rounded down, or the upper one, rounded up, for y on one side of 0.
fn quotient_end<S: ArithmeticScale>(
    scale: &S,
    rounding: Rounding,
    side: Side,
    x: Range,
    y: Range,
) -> i64
    ensures { BinaryEnd (S.place scale.now) rounding (QuotientsOn side) x y result }
{
    outermost(rounding, x, y, |a, b| {
        quotient_corner(scale, rounding, side, a, b)
    })
}

// x / y for y on one side of 0.
fn quotient_on<S: ArithmeticScale>(scale: &S, side: Side, x: Range, y: Range) -> Range
    ensures { Binary (S.place scale.now) (QuotientsOn side) x y result }
{
    if x.is_blank(scale) || !reaches(scale, side, y) {
        return Range::blank();
    }
    Range {
        lower: quotient_end(scale, Rounding::Down, side, x, y),
        upper: quotient_end(scale, Rounding::Up, side, x, y),
    }
}

/// x / y for y < 0.
pub fn quotient_negative<S: ArithmeticScale>(scale: &S, x: Range, y: Range) -> Range
    ensures { Binary (S.place scale.now) Quotients⁻ x y result }
{
    quotient_on(scale, Side::Below, x, y)
}

/// x / y for y > 0.
pub fn quotient_positive<S: ArithmeticScale>(scale: &S, x: Range, y: Range) -> Range
    ensures { Binary (S.place scale.now) Quotients⁺ x y result }
{
    quotient_on(scale, Side::Above, x, y)
}

/// x / y for y < 0, and for y > 0.
pub fn parted<S: ArithmeticScale>(scale: &S, x: Range, y: Range) -> (Range, Range)
    ensures negative { Binary (S.place scale.now) Quotients⁻ x y result.0 }
    ensures positive { Binary (S.place scale.now) Quotients⁺ x y result.1 }
{
    (
        quotient_negative(scale, x, y),
        quotient_positive(scale, x, y),
    )
}

/// x / y for y ≠ 0.
pub fn quotient<S: ArithmeticScale>(scale: &S, x: Range, y: Range) -> Range
    ensures { Binary (S.place scale.now) Quotients x y result }
{
    let (negative, positive) = parted(scale, x, y);
    join(scale, negative, positive)
}
