//! Worked examples of the rules, proved as one table, and a check of such claims by the library's own functions.
#![tactic(auto)]

ghost use Rattle.std.specs.Prelude.{◌≡◌, length, Decides};
ghost use Rattle.range.specs.Held.{Holds};
ghost use Rattle.range.specs.Truths.{Exactly, Comparisons};
ghost use Rattle.range.specs.Worked.{Binary};
ghost use Rattle.examples.specs.Claims.{outcomes, compared, Claims};
ghost use Rattle.examples.specs.Table.{table, Says, Every};

use range::{
    Entry, Range, Verdict, at_most, less, product, quotient, quotient_negative, quotient_positive,
    square, sum,
};
use scale::{ArithmeticScale, OrderedScale};

/// An operation on two ranges; a square takes the second alone.
#[derive(Clone, Copy)]
pub enum Operation {
    Added,
    Multiplied,
    Squared,
    Divided,
    /// By the divisors below 0.
    DividedNegative,
    /// By the divisors above 0.
    DividedPositive,
}

/// A comparison of two ranges.
#[derive(Clone, Copy)]
pub enum Comparison {
    Less,
    AtMost,
}

/// What is claimed of an operation: with these operands, this result.
#[derive(Clone, Copy)]
pub enum Claim {
    Enters(Entry, Range),
    Works(Operation, Range, Range, Range),
    Compares(Comparison, Range, Range, Verdict),
}

// What the operation comes to.
// The operation is a value, and no function, since the table holds it.
fn comes_to<S: ArithmeticScale>(scale: &S, operation: Operation, x: Range, y: Range) -> Range
    ensures { Binary (S.place scale.now) (outcomes operation) x y result }
{
    match operation {
        Operation::Added => sum(scale, x, y),
        Operation::Multiplied => product(scale, x, y),
        Operation::Squared => square(scale, y),
        Operation::Divided => quotient(scale, x, y),
        Operation::DividedNegative => quotient_negative(scale, x, y),
        Operation::DividedPositive => quotient_positive(scale, x, y),
    }
}

// What the comparison comes to.
// A value too, since the table holds it.
fn judged<S: OrderedScale>(scale: &S, comparison: Comparison, x: Range, y: Range) -> Verdict
    ensures { Exactly (Comparisons (compared comparison) (Holds (S.place scale.now) x) (Holds (S.place scale.now) y)) result }
{
    match comparison {
        Comparison::Less => less(scale, x, y),
        Comparison::AtMost => at_most(scale, x, y),
    }
}

/// Whether the claim holds on the scale, which is whether the library's own functions come to its result.
pub fn agrees<S: ArithmeticScale>(scale: &S, claim: Claim) -> bool
    ensures { Decides result (Claims (S.place scale.now) claim) }
{
    match claim {
        Claim::Enters(entry, range) => entry.hull(scale) == range,
        Claim::Works(operation, x, y, range) => comes_to(scale, operation, x, y) == range,
        Claim::Compares(comparison, x, y, verdict) => judged(scale, comparison, x, y) == verdict,
    }
}

/// How many rows the table has. Every row holds by the rules.
pub fn count() -> usize
    ensures rows { result ≡ length table }
    ensures worked { Every Says table }
{
    14
}
